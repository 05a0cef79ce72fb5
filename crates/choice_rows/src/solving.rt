//! What the solver answers, and which blocks its certificates have.
ghost use Rattle.std.specs.Prelude.{◌≤◌};
ghost use Rattle.zi_universe.specs.Whole.{BeginsWith};

use crate::asking::Asked;
use crate::refusing::put_build_fault;
use std::alloc::Global;
use zi_lines::Sheet;
use zi_proof::Block;
use zi_solve::{Answer, solve};

/// Adds what is chosen for each interface.
fn put_picks(out: &mut Sheet, picks: &[Option<u32>]) {
    for pick in picks {
        match pick {
            Some(pick) => out.number(u64::from(*pick)),
            None => out.put("-"),
        }
        out.put(" ");
    }
}

/// Adds each block, as its place and its candidate's variable.
fn put_blocks(out: &mut Sheet, blocks: &[Block]) {
    for block in blocks {
        out.put(" ");
        out.number(u64::from(block.place));
        out.put(".");
        out.number(u64::from(block.candidate));
    }
}

/// Adds an answer.
fn put_answer(out: &mut Sheet, answer: &Answer) {
    match answer {
        Answer::Best {
            choice,
            certificate,
        } => {
            put_picks(out, choice.picks.as_slice());
            out.put("|");
            put_blocks(out, certificate.blocks.as_slice());
        }
        Answer::None { .. } => out.put("none"),
        Answer::Spent { count, .. } => {
            out.put("spent ");
            out.number(*count);
        }
    }
}

/// Adds what is answered within a budget.
fn put_within(alloc: Global, out: &mut Sheet, asked: &Asked, budget: u64)
    requires rooted { BeginsWith asked.now.universe asked.now.req.interface }
    requires budget { budget ≤ 4000000000 }
{
    match solve(alloc, &asked.universe, &asked.req, budget) {
        Ok(answer) => put_answer(out, &answer),
        Err(fault) => put_build_fault(out, &fault),
    }
}

/// Adds what is answered within the budget that a row has.
pub(crate) fn put_solved(alloc: Global, out: &mut Sheet, asked: &Asked, row: &str)
    requires { BeginsWith asked.now.universe asked.now.req.interface }
{
    let budget = row.parse::<u16>().unwrap_or(0);
    put_within(alloc, out, asked, u64::from(budget));
}
