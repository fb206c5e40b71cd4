//! Sessions as engines under the driver: on one thread, and by workers.

ghost use Rattle.std.specs.Prelude.{◌≡◌, ◌≤◌};
ghost use Rattle.pld_session.specs.States.{at_first};

use crate::edits::refuse;
use crate::session::Session;
use fabric_core::Record;
use pld_base::NoMemory;
use pld_driver::{Bench, Engine};
use pld_io::Gate;
use pld_reply::Refusal;
use pld_runner::{OneThread, Workers};
use pld_script::Statement;
use std::alloc::Global;
use std::marker::Model;
use std::sync::Wait;
use std::thread::Threads;

impl Engine for Session {
    ghost use Rattle.pld_runner.specs.Orders.{Plain};
    ghost use Rattle.pld_session.specs.Answers.{answer};
    ghost use Rattle.pld_session.specs.Runs.{FitsRun};

    type Record = Record;

    ghost ready = { Unit {0} };

    ghost step = { answer };

    ghost fits = { FitsRun Plain };

    fn answer(
        &mut self,
        alloc: Global,
        number: u64,
        said: Option<Statement>,
        gate: &(dyn Gate + Sync),
        bench: &mut Bench<Record>,
        reply: &mut Vec<u8>,
    ) -> Result<bool, NoMemory> {
        match said {
            None => refuse(number, Refusal::BadLine, reply),
            Some(statement) => {
                self.answer_statement(alloc, &OneThread, gate, number, statement, bench, reply)
            }
        }
    }
}

/// A session whose images and runs are made by workers on threads.
#[derive(Drop)]
pub struct WorkSession<'a, R: Threads + Wait + Sync> {
    makers: Workers<'a, R>,
    session: Session,
}

impl<'a, R: Threads + Wait + Sync> Model for WorkSession<'a, R> {
    ghost use Rattle.pld_session.specs.States.{State};
    ghost use Rattle.pld_ast.specs.contracts.tree.Stmt as stmt;
    ghost use Rattle.pld_ast.specs.contracts.tree.Expr as expr;
    ghost use Rattle.std.specs.Coded.{codes};

    ghost Value = { State };

    ghost coded = { Prim.hlevel (codes, stmt.the_row.coded, expr.the_row.coded) };

    ghost view = { λ s. s.session };
}

impl<'a, R: Threads + Wait + Sync> WorkSession<'a, R> {
    /// No statement was accepted yet. Runs may make so many rounds, from 1 to 1,000,000.
    pub fn new(alloc: Global, makers: Workers<'a, R>, rounds: u64) -> WorkSession<'a, R>
        requires some { 1 ≤ rounds }
        requires most { rounds ≤ 1000000 }
        ensures { result ≡ at_first rounds }
    {
        let session = Session::new(alloc, rounds);
        WorkSession { makers, session }
    }
}

impl<'a, R: Threads + Wait + Sync> Engine for WorkSession<'a, R> {
    ghost use Rattle.std.specs.Thread.{IsSync};
    ghost use Rattle.pld_runner.specs.Orders.{Any};
    ghost use Rattle.pld_session.specs.Answers.{answer};
    ghost use Rattle.pld_session.specs.Runs.{FitsRun};

    type Record = Record;

    ghost ready = { IsSync R.row };

    ghost step = { answer };

    ghost fits = { FitsRun Any };

    fn answer(
        &mut self,
        alloc: Global,
        number: u64,
        said: Option<Statement>,
        gate: &(dyn Gate + Sync),
        bench: &mut Bench<Record>,
        reply: &mut Vec<u8>,
    ) -> Result<bool, NoMemory> {
        match said {
            None => refuse(number, Refusal::BadLine, reply),
            Some(statement) => self
                .session
                .answer_statement(alloc, &self.makers, gate, number, statement, bench, reply),
        }
    }
}
