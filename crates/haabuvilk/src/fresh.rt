// The fresh store.
ghost use Rattle.std.specs.Prelude.{◌≡◌, length, replicate};
ghost use Rattle.rules.specs.Size.{table_size};
ghost use Rattle.rules.specs.Layout.{table_bytes};
ghost use Rattle.rules.specs.Node.{fresh_table};
ghost use Rattle.replies.specs.Does.{tables};
ghost use Rattle.haabuvilk.specs.Lent.{refreshed, FreshMeets};

use crate::refusal::{HANDLED, Refusal};
use crate::sizes::sized_tables;
use octets::parts::clear;

// Clears a whole table.
fn empty(s: &mut [u8])
    ensures { s.new ≡ replicate (length s.old) 0 }
{
    let n = s.len();
    clear(s, 0, n);
}

// Leaves the root alone: no value, and permission `n0`.
fn root_only(nodes: &mut [u8])
    requires { length nodes.old ≡ table_size }
    ensures { nodes.new ≡ table_bytes fresh_table }
{
    empty(nodes);
    nodes[0] = 128;
    nodes[2] = 1;
}

// Fills the tables with the fresh store, and answers 0; or 1 with nothing altered, where a size is wrong.
pub fn haabuvilk_fresh(
    nodes: &mut [u8],
    copies: &mut [u8],
    watches: &mut [u8],
    transactions: &mut [u8],
    domains: &mut [u8],
) -> u32
    ensures { FreshMeets
        (tables nodes.old copies.old watches.old transactions.old domains.old)
        (refreshed result (tables nodes.new copies.new watches.new transactions.new domains.new)) }
{
    if !sized_tables(nodes, copies, watches, transactions, domains) {
        return Refusal::WrongSize.number();
    }
    root_only(nodes);
    empty(copies);
    empty(watches);
    empty(transactions);
    empty(domains);
    HANDLED
}
