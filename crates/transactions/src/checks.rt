// Whether the bytes of transactions are sound, but for the copies of the open ones.
ghost use Rattle.std.specs.Prelude.{◌≡◌, true, ◌+◌, ◌*◌, ◌<◌, ◌≤◌, length, get_or, take, drop};
ghost use Rattle.std.proofs.Math.Option.{none};
ghost use Rattle.rules.specs.Size.{most_transactions, transaction_size, transactions_size, most_changes, change_size, domains_size};
ghost use Rattle.rules.specs.Octets.{same};
ghost use Rattle.rules.specs.Path.{is_full, fits, names_in};
ghost use Rattle.rules.specs.Layout.{domains_of, transaction_bytes, transaction_in, transactions_bytes, transactions_of};
ghost use Rattle.rules.specs.Sound.{good_change, good_changes};
ghost use Rattle.domains.specs.Kept.{kept_at};
ghost use Rattle.transactions.specs.Transaction.{KeptTransactions, transaction_of, change_of, change_given, OpenTransaction, HasChange};
ghost use Rattle.transactions.specs.Checks.{change_kept, changes_kept, good_open, all_open_good, sound_entries};

use crate::places::{changes, holder, is_open, parents, path, removed};
use domains::places::known_sender;
use octets::compare::{all_zero, rest_zero};
use octets::numbers::number;
use octets::sizes::{
    CHANGE_FIELDS_SIZE, CHANGE_SIZE, CHANGES_AT, CHANGES_SIZE, LONGEST_PATH, MOST_CHANGES,
    TRANSACTION_SIZE, TRANSACTIONS, TRANSACTIONS_SIZE,
};
use paths::answer::Form;
use paths::form::form;
use paths::names::{depth, fits};

// ── bytes that are those of what they mean ──

fn is_full(x: &[u8]) -> bool
    ensures { result ≡ is_full x.now }
{
    matches!(form(x), Form::Absolute)
}

// Whether the bytes of a change from `at` on are those of what they mean.
fn change_kept(s: &[u8], at: usize) -> bool
    requires { at + change_size ≤ length s.now }
    ensures { result ≡ change_kept (take change_size (drop at s.now)) }
{
    let fields = number::<2>(s, at);
    if fields / 4096 % 8 != 0 {
        return false;
    }
    let n = (fields % 512) as usize;
    if LONGEST_PATH < n {
        return false;
    }
    let from = at + CHANGE_FIELDS_SIZE;
    is_full(&s[from..from + n]) && rest_zero(s, from, n, LONGEST_PATH)
}

// Whether the bytes of n changes from `at` on are.
fn changes_kept(s: &[u8], at: usize, n: usize) -> bool
    requires { (n ≤ most_changes) × (at + n * change_size ≤ length s.now) }
    ensures { result ≡ changes_kept n (take (n * change_size) (drop at s.now)) }
{
    (0..n).all(|j| change_kept(s, at + j * CHANGE_SIZE))
}

// Whether the bytes of place k are.
fn place_kept(s: &[u8], k: usize) -> bool
    requires { (k < most_transactions) × (length s.now ≡ transactions_size) }
    ensures { result ≡ kept_at most_transactions transaction_size transaction_bytes transaction_in s.now k }
{
    let at = k * TRANSACTION_SIZE;
    if s[at] < 128 {
        return all_zero(&s[at..at + TRANSACTION_SIZE]);
    }
    if s[at] / 16 % 4 != 0 {
        return false;
    }
    let n = (s[at] % 16) as usize;
    if MOST_CHANGES < n {
        return false;
    }
    changes_kept(s, at + CHANGES_AT, n)
        && rest_zero(s, at + CHANGES_AT, n * CHANGE_SIZE, CHANGES_SIZE)
}

// Whether the bytes are those of what they mean.
fn kept(s: &[u8]) -> bool
    requires { length s.now ≡ transactions_size }
    ensures { result ≡ same (transactions_bytes (transactions_of s.now)) s.now }
{
    (0..TRANSACTIONS).all(|k| place_kept(s, k))
}

// ── what is asked of each transaction ──

// Whether a change on a path within the sizes has no more new parents than the path has nodes above it besides the root;
// a removal has none, and is not of `/`.
fn parents_good(removed: bool, parents: usize, path: &[u8]) -> bool
    requires { (is_full path.now ≡ true) × (fits (names_in path.now) ≡ true) }
    ensures { result ≡ good_change (change_given removed parents path.now) }
{
    if removed {
        return parents == 0 && 0 < depth(path);
    }
    parents == 0 || parents < depth(path)
}

// Whether change j is on a path within the sizes, and its new parents and its removal go with that path.
fn change_good(s: &[u8], k: usize, j: usize) -> bool
    requires { HasChange s.now k j }
    ensures { result ≡ good_change (change_of s.now k j) }
{
    let p = path(s, k, j);
    fits(p) && parents_good(removed(s, k, j), parents(s, k, j), p)
}

fn changes_good(s: &[u8], k: usize) -> bool
    requires { OpenTransaction s.now k }
    ensures { result ≡ good_changes (transaction_of s.now k).changes }
{
    (0..changes(s, k)).all(|j| change_good(s, k, j))
}

// Whether place k is closed, or its holder is known and its changes are good.
fn place_good(s: &[u8], domains: &[u8], k: usize) -> bool
    requires { (k < most_transactions) × KeptTransactions s.now × (length domains.now ≡ domains_size) }
    ensures { result ≡ good_open (domains_of domains.now) (get_or (transactions_of s.now) k none) }
{
    if !is_open(s, k) {
        return true;
    }
    known_sender(domains, holder(s, k)) && changes_good(s, k)
}

fn good(s: &[u8], domains: &[u8]) -> bool
    requires { KeptTransactions s.now × (length domains.now ≡ domains_size) }
    ensures { result ≡ all_open_good (domains_of domains.now) (transactions_of s.now) }
{
    (0..TRANSACTIONS).all(|k| place_good(s, domains, k))
}

// Whether the bytes of transactions are sound beside those of the domains, whatever the copies are.
pub fn sound_entries(s: &[u8], domains: &[u8]) -> bool
    requires { length domains.now ≡ domains_size }
    ensures { result ≡ sound_entries (domains_of domains.now) s.now }
{
    if s.len() != TRANSACTIONS_SIZE {
        return false;
    }
    kept(s) && good(s, domains)
}
