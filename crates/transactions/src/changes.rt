// Transactions opened, closed, made stale and extended.
ghost use Rattle.std.specs.Prelude.{◌≡◌, ◌+◌, ◌*◌, ◌<◌, ◌≤◌, true, eqb, length, get_or, set};
ghost use Rattle.std.proofs.Math.Option.{none, some};
ghost use Rattle.rules.specs.Size.{most_transactions, change_size, longest_path, deepest};
ghost use Rattle.rules.specs.Octets.{paste, bit};
ghost use Rattle.rules.specs.Layout.{opened, change_bytes, transactions_bytes, transactions_of};
ghost use Rattle.rules.specs.Path.{is_full};
ghost use Rattle.rules.specs.World.{staled, without_transactions};
ghost use Rattle.domains.specs.Entry.{dropped_if};
ghost use Rattle.transactions.specs.Transaction.{KeptTransactions, transaction_of, held_by, stale_of, change_given, changed_by, RoomForChange};

use crate::places::{changes, held, is_open};
use domains::freeing::free_where;
use octets::parts::{clear, put_text};
use octets::sizes::{
    CHANGE_FIELDS_SIZE, CHANGE_SIZE, CHANGES_AT, CHANGES_SIZE, LONGEST_PATH, TRANSACTION_SIZE,
    TRANSACTIONS,
};

// Opens place k for connection c: not stale, and with no changes.
pub fn open(s: &mut [u8], k: usize, c: u32)
    requires { (k < most_transactions) × (c < 65536) × KeptTransactions s.old }
    ensures { s.new ≡ transactions_bytes (set (transactions_of s.old) k (some (opened c))) }
{
    let at = k * TRANSACTION_SIZE;
    clear(s, at + CHANGES_AT, CHANGES_SIZE);
    s[at] = 128;
    s[at + 1] = (c / 256 % 256) as u8;
    s[at + 2] = (c % 256) as u8;
}

// Closes place k.
pub fn close(s: &mut [u8], k: usize)
    requires { (k < most_transactions) × KeptTransactions s.old }
    ensures { s.new ≡ transactions_bytes (set (transactions_of s.old) k none) }
{
    clear(s, k * TRANSACTION_SIZE, TRANSACTION_SIZE);
}

// The first bit of a change, in its byte.
fn removal_mark(removed: bool) -> u8
    ensures { result ≡ 128 * bit removed }
{
    128 * u8::from(removed)
}

// Puts a change on a full path into the bytes from `at` on.
fn put_change(s: &mut [u8], at: usize, removed: bool, parents: usize, path: &[u8])
    requires { (at + change_size ≤ length s.old) × (is_full path.now ≡ true) × (length path.now ≤ longest_path) × (parents < deepest) }
    ensures { s.new ≡ paste at (change_bytes (change_given removed parents path.now)) s.old }
{
    put_text(s, at + CHANGE_FIELDS_SIZE, path, LONGEST_PATH);
    let n = path.len();
    s[at] = removal_mark(removed) + 2 * parents as u8 + (n / 256 % 2) as u8;
    s[at + 1] = (n % 256) as u8;
}

// Adds a change to the transaction in place k.
pub fn add_change(s: &mut [u8], k: usize, removed: bool, parents: usize, path: &[u8])
    requires { RoomForChange s.old k parents path.now }
    ensures { s.new ≡ transactions_bytes
        (set (transactions_of s.old) k (some (changed_by (transaction_of s.old k) removed parents path.now))) }
{
    let at = k * TRANSACTION_SIZE;
    let first = s[at];
    let n = changes(s, k);
    put_change(s, at + CHANGES_AT + n * CHANGE_SIZE, removed, parents, path);
    s[at] = first + 1;
}

// Makes the transaction in place k stale, if it is open.
fn make_stale(s: &mut [u8], k: usize)
    requires { (k < most_transactions) × KeptTransactions s.old }
    ensures { s.new ≡ transactions_bytes (set (transactions_of s.old) k (stale_of (get_or (transactions_of s.old) k none))) }
{
    if is_open(s, k) {
        let at = k * TRANSACTION_SIZE;
        s[at] = 192 + s[at] % 16;
    }
}

// Makes all open transactions stale.
pub fn stale_all(s: &mut [u8])
    requires { KeptTransactions s.old }
    ensures { s.new ≡ transactions_bytes (staled (transactions_of s.old)) }
{
    for k in 0..TRANSACTIONS {
        make_stale(s, k);
    }
}

// Closes the transactions of connection c.
pub fn remove_of(s: &mut [u8], c: u32)
    requires { KeptTransactions s.old }
    ensures { s.new ≡ transactions_bytes (without_transactions (eqb c) (transactions_of s.old)) }
{
    free_where(s, TRANSACTION_SIZE, TRANSACTIONS, |s, k| held(s, k, c));
}
