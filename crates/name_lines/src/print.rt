//! Answers as they are written.
ghost use Rattle.std.specs.Prelude.{◌≡◌, ◌+◌, ◌≤◌, ◌++◌, ◌∷◌, codes, OnErr, OnOk, true};
ghost use Rattle.std.specs.Vec.{vec_capacity, vec_len};
ghost use Rattle.ufs_model.specs.Printed.{line_of};
ghost use Rattle.name_lines.specs.Printed as spec;
ghost use Rattle.name_lines.specs.Walking.{IsWrittenAs};

use crate::answer::Answer;
use cfs_base::NoMemory;
use cfs_script::{REPLY_ROOM, print_reply, print_unread, put_line};
use name_dirs::{DirFault, Texts};
use ufs_model::{Reply, Unread};

/// Appends the line of an ok and these names.
fn print_names(names: &Texts, into: &mut Vec<u8>) -> Result<(), NoMemory>
    ensures line { OnOk result (into.new.items ≡ into.old.items ++ line_of (codes "ok" ∷ names.now)) }
    ensures capacity { vec_capacity into.old ≤ vec_capacity into.new }
{
    into.extend_from_slice(b"ok")?;
    'names: for name in names.as_slice() {
        into.extend_from_slice(b" ")?;
        into.extend_from_slice(name.as_slice())?;
    }
    into.extend_from_slice(b"\n")?;
    Ok(())
}

/// Returns whether the reply has bytes of a file, which that of no fault has.
fn is_content(reply: &Reply) -> bool
    ensures { result ≡ spec.is_content reply.now }
{
    matches!(reply, Reply::Content(_))
}

/// Appends the line of a fault. Takes no memory.
fn print_fault(fault: &DirFault, into: &mut Vec<u8>) -> Result<(), NoMemory>
    requires { vec_len into.old + REPLY_ROOM ≤ vec_capacity into.old }
    ensures line { OnOk result (into.new.items ≡ into.old.items ++ spec.dir_fault_line fault.now) }
    ensures long { OnErr result (spec.may_be_long (Answer.Refused fault.now) ≡ true) }
    ensures capacity { vec_capacity into.old ≤ vec_capacity into.new }
{
    match fault {
        DirFault::NotDirectory => put_line(into, b"no directory", &[]),
        DirFault::NoName => put_line(into, b"no name", &[]),
        DirFault::Exists => put_line(into, b"no exists", &[]),
        DirFault::DirFull { capacity } => put_line(into, b"no dir-full", &[u64::from(*capacity)]),
        DirFault::Asked(reply) if is_content(reply) => return Err(NoMemory),
        DirFault::Asked(reply) => print_reply(reply, into),
        DirFault::Memory => put_line(into, b"no memory", &[]),
    }
    Ok(())
}

/// Appends the line of an answer. Only names may need memory.
fn print_answer(answer: &Answer, into: &mut Vec<u8>) -> Result<(), NoMemory>
    requires { vec_len into.old + REPLY_ROOM ≤ vec_capacity into.old }
    ensures line { OnOk result (into.new.items ≡ into.old.items ++ spec.answer_line answer.now) }
    ensures long { OnErr result (spec.may_be_long answer.now ≡ true) }
    ensures capacity { vec_capacity into.old ≤ vec_capacity into.new }
{
    match answer {
        Answer::Done => put_line(into, b"ok", &[]),
        Answer::Id(id) => print_reply(&Reply::Id(*id), into),
        Answer::Names(names) => return print_names(names, into),
        Answer::Syntax => print_unread(Unread::Syntax, into),
        Answer::Refused(fault) => return print_fault(fault, into),
    }
    Ok(())
}

/// Makes `reply` the line of an answer, and returns the answer as it was written.
///
/// Names for which there is no room become a want of memory.
pub(crate) fn write_answer(answer: Answer, reply: &mut Vec<u8>) -> Answer
    requires { REPLY_ROOM ≤ vec_capacity reply.old }
    ensures kept { IsWrittenAs answer result }
    ensures line { reply.new.items ≡ spec.answer_line result }
    ensures capacity { vec_capacity reply.old ≤ vec_capacity reply.new }
{
    reply.clear();
    if print_answer(&answer, reply).is_ok() {
        return answer;
    }
    reply.clear();
    put_line(reply, b"no memory", &[]);
    Answer::Refused(DirFault::Memory)
}
