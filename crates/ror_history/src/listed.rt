//! What stands in a chain of numbered statements, whose nodes have the numbers from 1 on in order.

ghost use Rattle.std.specs.Prelude.{◌≡◌, ◌≢◌, ◌≤◌, suc, nat_eq, length, map, vec_capacity, IfOk, IfErr, MatchOption};
ghost use Rattle.std.specs.List.{All, Contains, IsDistinct};
ghost use Rattle.ror_chain.specs.Chain.{IsChain, IsLinked, linked_items};
ghost use Rattle.ror_history.specs.Inverses.{IsSound};
ghost use Rattle.ror_statement.specs.Statements.{numbers_in, statements_in};
ghost use Rattle.ror_history.specs.declared.history.HistoryFault.TheVariants.{Memory, NoSuchStatement};
ghost use Rattle.ror_history.specs.Faults.{AreEachOnce};

use crate::history::HistoryFault;
use ror_chain::Chain;
use ror_statement::{Numbered, Statement};
use std::alloc::{AllocError, Global};

/// The items of the linked nodes, in order.
pub fn listed(alloc: Global, chain: &Chain<Numbered>) -> Result<Vec<Numbered>, AllocError>
    requires { IsSound chain.now.state }
    ensures { IfOk result (λ list. list.items ≡ linked_items chain.now.state) }
{
    let mut list = Vec::new(alloc);
    let mut at = chain.first();
    'nodes: while let Some(node) = at {
        list.push(chain.item(node))?;
        at = chain.next(node);
    }
    Ok(list)
}

/// Fills a list with the statements of the linked nodes, in order, for which it has room. It takes no memory.
pub fn list_statements(chain: &Chain<Numbered>, list: &mut Vec<Statement>)
    requires chain { IsChain chain.now.state }
    requires room { length chain.now.state.order ≤ vec_capacity list.old }
    ensures listed { list.new.items ≡ statements_in (linked_items chain.now.state) }
    ensures room { vec_capacity list.old ≤ vec_capacity list.new }
{
    list.clear();
    let mut at = chain.first();
    'nodes: while let Some(node) = at {
        list.push(chain.item(node).statement).unwrap();
        at = chain.next(node);
    }
}

/// The linked node that holds the statement of a number, if it stands.
pub fn find(chain: &Chain<Numbered>, number: u32) -> Option<usize>
    requires { IsSound chain.now.state }
    ensures { MatchOption result
        (Contains (numbers_in (linked_items chain.now.state)) number → ⊥)
        (λ node. (number ≡ suc node) × IsLinked chain.now.state node) }
{
    let node = (number as usize).checked_sub(1)?;
    if node < chain.nodes() && chain.linked(node) {
        Some(node)
    } else {
        None
    }
}

/// The nodes that hold the statements of numbers, if each stands and is listed once.
pub fn find_all(
    alloc: Global,
    chain: &Chain<Numbered>,
    list: &[u32],
) -> Result<Vec<usize>, HistoryFault>
    requires { IsSound chain.now.state }
    ensures found { IfOk result (λ nodes. map suc nodes.items ≡ list.now) }
    ensures linked { IfOk result (λ nodes. All (IsLinked chain.now.state) nodes.items) }
    ensures once { IfOk result (λ nodes. IsDistinct nat_eq nodes.items) }
    ensures refused { IfErr result (λ e. e ≢ HistoryFault.Memory → (e ≡ HistoryFault.NoSuchStatement)
        × (AreEachOnce (numbers_in (linked_items chain.now.state)) list.now → ⊥)) }
{
    let mut nodes = Vec::new(alloc);
    for number in list {
        let Some(node) = find(chain, *number) else {
            return Err(HistoryFault::NoSuchStatement);
        };
        if nodes.contains(&node) {
            return Err(HistoryFault::NoSuchStatement);
        }
        nodes.push(node)?;
    }
    Ok(nodes)
}
