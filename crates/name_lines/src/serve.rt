//! How lines are served.
ghost use Rattle.std.specs.Prelude.{◌≡◌, ◌<◌, ◌≤◌, Some};
ghost use Rattle.std.specs.Vec.{vec_capacity};
ghost use Rattle.name_lines.specs.Printed.{answer_line};
ghost use Rattle.name_lines.specs.Runs.{ServesLine, SpendsLine};
ghost use Rattle.name_lines.specs.Spoken.{line_in};
ghost use Rattle.name_lines.specs.Walking as spec;

use crate::answer::Answer;
use crate::line::{Capacity, Line, NameAt, Pathname};
use crate::print::write_answer;
use crate::read::read_line;
use crate::walk::walk;
use cfs_base::{Puid, Session};
use cfs_script::REPLY_ROOM;
use name_dirs::{DirFault, bind, list, look, make, make_root, unbind};
use std::alloc::Global;
use std::marker::Model;
use ufs_model::Asker;

fn make_top<A: Asker>(
    asker: &mut A,
    alloc: Global,
    who: Session,
    capacity: &Capacity,
) -> Result<Answer, DirFault>
    requires words { A.words asker.old < 4294967290 }
    ensures went { spec.AnswersLine A.Asker who (Some (Line.MakeTop capacity.now)) asker.old asker.new result }
    ensures spends { spec.SpendsIn A.Asker asker.old asker.new result }
{
    Ok(Answer::Id(make_root(asker, alloc, who, capacity.get())?))
}

fn make_at<A: Asker>(
    asker: &mut A,
    alloc: Global,
    who: Session,
    place: &NameAt,
    capacity: &Capacity,
) -> Result<Answer, DirFault>
    requires words { A.words asker.old < 4294967290 }
    ensures went { spec.AnswersLine A.Asker who (Some (Line.MakeDir place.now capacity.now)) asker.old asker.new
        result }
    ensures spends { spec.SpendsIn A.Asker asker.old asker.new result }
{
    let dir = walk(asker, alloc, who, &place.above)?;
    let made = make(asker, alloc, who, dir, &place.name, capacity.get())?;
    Ok(Answer::Id(made))
}

fn bind_at<A: Asker>(
    asker: &mut A,
    alloc: Global,
    who: Session,
    place: &NameAt,
    id: Puid,
) -> Result<Answer, DirFault>
    requires words { A.words asker.old < 4294967290 }
    ensures went { spec.AnswersLine A.Asker who (Some (Line.Bind place.now id)) asker.old asker.new result }
    ensures spends { spec.SpendsIn A.Asker asker.old asker.new result }
{
    let dir = walk(asker, alloc, who, &place.above)?;
    bind(asker, alloc, who, dir, &place.name, id)?;
    Ok(Answer::Done)
}

fn look_at<A: Asker>(
    asker: &mut A,
    alloc: Global,
    who: Session,
    place: &NameAt,
) -> Result<Answer, DirFault>
    requires words { A.words asker.old < 4294967290 }
    ensures went { spec.AnswersLine A.Asker who (Some (Line.Look place.now)) asker.old asker.new result }
    ensures spends { spec.SpendsIn A.Asker asker.old asker.new result }
{
    let dir = walk(asker, alloc, who, &place.above)?;
    let id = look(asker, alloc, who, dir, &place.name)?;
    Ok(Answer::Id(id))
}

fn unbind_at<A: Asker>(
    asker: &mut A,
    alloc: Global,
    who: Session,
    place: &NameAt,
) -> Result<Answer, DirFault>
    requires words { A.words asker.old < 4294967290 }
    ensures went { spec.AnswersLine A.Asker who (Some (Line.Unbind place.now)) asker.old asker.new result }
    ensures spends { spec.SpendsIn A.Asker asker.old asker.new result }
{
    let dir = walk(asker, alloc, who, &place.above)?;
    unbind(asker, alloc, who, dir, &place.name)?;
    Ok(Answer::Done)
}

fn list_at<A: Asker>(
    asker: &mut A,
    alloc: Global,
    who: Session,
    path: &Pathname,
) -> Result<Answer, DirFault>
    requires words { A.words asker.old < 4294967290 }
    ensures went { spec.AnswersLine A.Asker who (Some (Line.ListDir path.now)) asker.old asker.new result }
    ensures spends { spec.SpendsIn A.Asker asker.old asker.new result }
{
    let dir = walk(asker, alloc, who, path)?;
    let names = list(asker, alloc, who, dir)?;
    Ok(Answer::Names(names))
}

/// Does what was read.
fn do_line<A: Asker>(
    asker: &mut A,
    alloc: Global,
    who: Session,
    line: &Line,
) -> Result<Answer, DirFault>
    requires words { A.words asker.old < 4294967290 }
    ensures went { spec.AnswersLine A.Asker who (Some line.now) asker.old asker.new result }
    ensures spends { spec.SpendsIn A.Asker asker.old asker.new result }
{
    match line {
        Line::MakeTop { capacity } => make_top(asker, alloc, who, capacity),
        Line::MakeDir { place, capacity } => make_at(asker, alloc, who, place, capacity),
        Line::Bind { place, id } => bind_at(asker, alloc, who, place, *id),
        Line::Look { place } => look_at(asker, alloc, who, place),
        Line::Unbind { place } => unbind_at(asker, alloc, who, place),
        Line::ListDir { path } => list_at(asker, alloc, who, path),
    }
}

/// Reads a line and does what it asks.
fn answer_line<A: Asker>(
    asker: &mut A,
    alloc: Global,
    who: Session,
    text: &[u8],
) -> Result<Answer, DirFault>
    requires words { A.words asker.old < 4294967290 }
    ensures went { spec.AnswersLine A.Asker who (line_in text.now) asker.old asker.new result }
    ensures spends { spec.SpendsIn A.Asker asker.old asker.new result }
{
    let Some(line) = read_line(alloc, text)? else {
        return Ok(Answer::Syntax);
    };
    do_line(asker, alloc, who, &line)
}

/// Does what a line asks, and makes `reply` the line of its answer, whatever it held.
///
/// No session may have a grant. The room for an answer is in `reply` before the first request, so a change that was
/// done is reported. Only the names of a directory may find no room, and then nothing was changed.
pub fn serve_line<A: Asker>(
    asker: &mut A,
    alloc: Global,
    who: Session,
    text: &[u8],
    reply: &mut Vec<u8>,
) -> Answer
    requires words { A.words asker.old < 4294967290 }
    requires room { REPLY_ROOM ≤ vec_capacity reply.old }
    ensures went { ServesLine A.Asker who (line_in text.now) asker.old asker.new result }
    ensures spends { SpendsLine A.Asker asker.old asker.new result }
    ensures line { reply.new.items ≡ answer_line result }
    ensures capacity { vec_capacity reply.old ≤ vec_capacity reply.new }
{
    let answer = match answer_line(asker, alloc, who, text) {
        Ok(answer) => answer,
        Err(fault) => Answer::Refused(fault),
    };
    write_answer(answer, reply)
}
