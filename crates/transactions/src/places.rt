// The fields of a transaction and of its changes.
ghost use Rattle.std.specs.Prelude.{◌≡◌, ◌+◌, ◌<◌, ◌≤◌, length, get_or, IfSome, unwrap_or};
ghost use Rattle.std.proofs.Math.Option.{none};
ghost use Rattle.rules.specs.Size.{most_transactions, transactions_size, most_changes};
ghost use Rattle.rules.specs.Entries.{lowest};
ghost use Rattle.rules.specs.Path.{path_text};
ghost use Rattle.rules.specs.Layout.{transactions_of};
ghost use Rattle.domains.specs.Entry.{taken, passes};
ghost use Rattle.transactions.specs.Transaction.{KeptTransactions, transaction_of, change_of, OpenTransaction, HasChange, held_by};

use octets::numbers::number;
use octets::sizes::{CHANGE_FIELDS_SIZE, CHANGE_SIZE, CHANGES_AT, TRANSACTION_SIZE, TRANSACTIONS};

// Whether place k is open. Each table has a test of its own, one line, since each contract speaks of that table's list.
pub fn is_open(s: &[u8], k: usize) -> bool
    requires { (k < most_transactions) × (length s.now ≡ transactions_size) }
    ensures { result ≡ taken (get_or (transactions_of s.now) k none) }
{
    128 <= s[k * TRANSACTION_SIZE]
}

pub fn holder(s: &[u8], k: usize) -> u32
    requires { OpenTransaction s.now k }
    ensures { result ≡ (transaction_of s.now k).holder }
{
    number::<2>(s, k * TRANSACTION_SIZE + 1) as u32
}

pub fn stale(s: &[u8], k: usize) -> bool
    requires { OpenTransaction s.now k }
    ensures { result ≡ (transaction_of s.now k).stale }
{
    s[k * TRANSACTION_SIZE] / 64 % 2 == 1
}

// How many changes it has.
pub fn changes(s: &[u8], k: usize) -> usize
    requires { OpenTransaction s.now k }
    ensures { (result ≡ length (transaction_of s.now k).changes) × (result ≤ most_changes) }
{
    (s[k * TRANSACTION_SIZE] % 16) as usize
}

// Whether change j is a removal.
pub fn removed(s: &[u8], k: usize, j: usize) -> bool
    requires { HasChange s.now k j }
    ensures { result ≡ (change_of s.now k j).removal }
{
    128 <= s[k * TRANSACTION_SIZE + CHANGES_AT + j * CHANGE_SIZE]
}

// How many parents change j created.
pub fn parents(s: &[u8], k: usize, j: usize) -> usize
    requires { HasChange s.now k j }
    ensures { result ≡ (change_of s.now k j).parents }
{
    (s[k * TRANSACTION_SIZE + CHANGES_AT + j * CHANGE_SIZE] / 2 % 8) as usize
}

// The path of change j.
pub fn path(s: &[u8], k: usize, j: usize) -> &[u8]
    requires { HasChange s.now k j }
    ensures { result.now ≡ path_text (change_of s.now k j).names }
{
    let at = k * TRANSACTION_SIZE + CHANGES_AT + j * CHANGE_SIZE;
    let n = (number::<2>(s, at) % 512) as usize;
    let from = at + CHANGE_FIELDS_SIZE;
    &s[from..from + n]
}

// Whether place k has a transaction of connection c.
pub fn held(s: &[u8], k: usize, c: u32) -> bool
    requires { (k < most_transactions) × KeptTransactions s.now }
    ensures { result ≡ passes (held_by c) (get_or (transactions_of s.now) k none) }
{
    is_open(s, k) && c == holder(s, k)
}

// The lowest place that is not open.
pub fn lowest_free(s: &[u8]) -> Option<usize>
    requires { length s.now ≡ transactions_size }
    ensures found { unwrap_or result most_transactions ≡ lowest (transactions_of s.now) }
    ensures below { IfSome result (λ k. k < most_transactions) }
{
    octets::places::lowest_free(s, TRANSACTION_SIZE, TRANSACTIONS)
}
