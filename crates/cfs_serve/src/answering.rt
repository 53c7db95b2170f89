//! Lines of names, answered one after the other.
ghost use Rattle.std.specs.Prelude.{◌≡◌, ◌+◌, ◌*◌, ◌<◌, ◌≤◌, length};
ghost use Rattle.std.specs.Vec.{vec_capacity};
ghost use Rattle.ufs_model.specs.Script.{request_lines};
ghost use Rattle.cfs_serve.specs.Lines as spec;

use cfs_base::{Session, Sink};
use cfs_script::{REPLY_ROOM, next_line};
use cfs_streams::write_whole;
use name_lines::{Answer, serve_line};
use std::alloc::Global;
use std::marker::Model;
use ufs_model::Asker;

/// The one session of a run of names.
const SESSION: Session = 0;

/// What the answers to lines reported, and whether the sink took them.
#[derive(Clone, Copy, Debug)]
pub(crate) struct Told {
    /// How many lines were answered.
    pub answers: u64,
    /// Whether an answer reported a failed call of the disk.
    pub failed: bool,
    /// Whether an answer reported want of memory.
    pub starved: bool,
    /// Whether the sink took each answer.
    pub took: bool,
}

impl Told {
    /// Returns the state before the first answer.
    fn nothing() -> Told
        ensures { result ≡ spec.told_nothing }
    {
        Told {
            answers: 0,
            failed: false,
            starved: false,
            took: true,
        }
    }

    /// Returns the state after one more answer, which the sink took or didn't.
    fn with(self, answer: &Answer, took: bool) -> Told
        requires { self.answers < 9223372036854775808 }
        ensures { result ≡ spec.told_with self answer.now took }
    {
        Told {
            answers: self.answers + 1,
            failed: self.failed || answer.tells_disk(),
            starved: self.starved || answer.wants_memory(),
            took,
        }
    }
}

/// Does what a line asks, and writes its answer. Returns `told` with that answer.
fn answer_one<A: Asker, K: Sink>(
    asker: &mut A,
    alloc: Global,
    line: &[u8],
    sink: &mut K,
    reply: &mut Vec<u8>,
    told: Told,
) -> Told
    requires words { A.words asker.old < 4294967290 }
    requires room { REPLY_ROOM ≤ vec_capacity reply.old }
    requires few { told.answers < 9223372036854775808 }
    ensures answered { spec.AnswersOne A.Asker line.now told (K.intake sink.old) (K.intake sink.new) asker.old asker.new
        result }
    ensures room { REPLY_ROOM ≤ vec_capacity reply.new }
{
    let answer = serve_line(asker, alloc, SESSION, line, reply);
    let took = write_whole(sink, reply.as_slice()).is_ok();
    told.with(&answer, took)
}

/// Answers the request lines of a script in order.
///
/// It stops after the first line whose answer the sink doesn't take.
pub(crate) fn answer_lines<A: Asker, K: Sink>(
    asker: &mut A,
    alloc: Global,
    script: &[u8],
    sink: &mut K,
    reply: &mut Vec<u8>,
) -> Told
    requires words { A.words asker.old + 2 * length (request_lines script.now) < 4294967290 }
    requires room { REPLY_ROOM ≤ vec_capacity reply.old }
    ensures { spec.AnswersLines A.Asker (request_lines script.now) (K.intake sink.old) (K.intake sink.new) asker.old
        asker.new result }
{
    let mut told = Told::nothing();
    let mut rest = script;
    'lines: while let Some(next) = next_line(rest) {
        rest = &rest[next.taken..];
        told = answer_one(asker, alloc, next.line, sink, reply, told);
        if !told.took {
            return told;
        }
    }
    told
}
