//! The replies to statements that are done.

ghost use Rattle.std.specs.Prelude.{◌≡◌, ◌++◌, OnOk, decimal, codes};
ghost use Rattle.pld_reply.specs.Replies.{ok_reply, built_reply, stats_reply};

use crate::put::{put_number, put_text};
use fabric_core::Counts;
use pld_base::NoMemory;

/// Writes the line `ok`.
pub fn put_ok(reply: &mut Vec<u8>) -> Result<(), NoMemory>
    ensures { OnOk result (reply.new.items ≡ reply.old.items ++ ok_reply) }
{
    put_text(reply, b"ok\n")
}

/// Writes the line `built N compiled K`: N operators stand, and K of their images were made by this build.
pub fn put_built(reply: &mut Vec<u8>, operators: u64, compiled: u64) -> Result<(), NoMemory>
    ensures { OnOk result (reply.new.items ≡ reply.old.items ++ built_reply operators compiled) }
{
    put_text(reply, b"built ")?;
    put_number(reply, operators)?;
    put_text(reply, b" compiled ")?;
    put_number(reply, compiled)?;
    put_text(reply, b"\n")
}

/// Writes the line `stats rounds R packets P deflected F configs C`: what a run counted.
pub fn put_stats(reply: &mut Vec<u8>, counts: Counts) -> Result<(), NoMemory>
    ensures { OnOk result (reply.new.items ≡ reply.old.items ++ stats_reply counts) }
{
    put_text(reply, b"stats rounds ")?;
    put_number(reply, counts.rounds)?;
    put_text(reply, b" packets ")?;
    put_number(reply, counts.packets)?;
    put_text(reply, b" deflected ")?;
    put_number(reply, counts.deflected)?;
    put_text(reply, b" configs ")?;
    put_number(reply, counts.configs)?;
    put_text(reply, b"\n")
}
