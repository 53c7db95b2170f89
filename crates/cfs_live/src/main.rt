//! A program on a core: `cfs_live VOLUME` serves one session on the volume in a file. It answers each line of standard
//! input on standard output before it reads the next, and collects once at the end.
#![tactic(auto)]

ghost use Rattle.std.specs.Prelude.{◌≡◌, ◌≤◌, None, OnOk};
ghost use Rattle.std.specs.Vec.{vec_capacity};
ghost use Rattle.cfs_script.specs.declared.reply.TheConstants.{REPLY_ROOM};

use cfs_base::Session;
use cfs_core::{CollectFault, Core, Step, TidyFault};
use cfs_host::FileDisk;
use cfs_script::{
    Names, REPLY_ROOM, ScriptFault, Spoken, all_verbs, next_line, print_reply, print_unread,
    read_line,
};
use std::alloc::Global;
use std::io::{BufRead, BufReader, Write};
use std::process::ExitCode;
use std::random::RandomSource;
use std::{env, fs};
use ufs_model::{Bound, Reply, Unread};

/// The number of the only session, by which a core knows whose a grant is.
const SESSION: Session = 0;

/// Why the program ends early. The number is its status.
#[derive(Clone, Copy)]
enum Fault {
    Words = 2,
    Volume = 3,
    Disk = 4,
    Output = 5,
    Input = 6,
    Memory = 7,
    File = 10,
}

/// A core, what the session's names stand for, and room for the longest reply.
#[derive(Drop)]
struct Live {
    core: Core<FileDisk>,
    names: Names,
    reply: Vec<u8>,
    ghost room: { REPLY_ROOM ≤ vec_capacity reply },
    ghost called: { core.collections.called ≡ 0 },
}

/// The file of the volume, locked until the disk is dropped.
fn disk_at(rt: &HostRuntime, path: &str) -> Result<FileDisk, Fault> {
    // While these are open, the volume can't get the number of a standard stream that is closed.
    let _held = (fs::open(rt, "/"), fs::open(rt, "/"), fs::open(rt, "/"));
    FileDisk::existing(rt, path).map_err(|why| {
        let _ = eprintln!(rt; "cfs_live: {path}: {why}");
        Fault::File
    })
}

/// A seed for the identifiers of new objects. None should come twice on a volume.
fn new_seed(rt: &HostRuntime) -> Result<u64, Fault> {
    let mut bytes = [0; 8];
    rt.fill_bytes(&mut bytes).map_err(|_| Fault::Input)?;
    Ok(u64::from_le_bytes(bytes))
}

/// Carries out what the last commit has left, in parts of at most four calls of the disk.
fn tidy_all(core: &mut Core<FileDisk>) -> Result<(), TidyFault>
    ensures none { OnOk result (core.new.space.left ≡ None) }
    ensures called { core.new.collections.called ≡ core.old.collections.called }
{
    'parts: while core.parts_left() > 0 {
        core.tidy()?;
    }
    Ok(())
}

impl Live {
    /// Opens the volume, as a crash may have left it. What isn't a sound one stays as it is.
    fn open(rt: &HostRuntime, alloc: Global, path: &str) -> Result<Live, Fault> {
        let Ok(reply) = Vec::with_capacity(alloc, REPLY_ROOM) else {
            return Err(Fault::Memory);
        };
        match Core::open(alloc, disk_at(rt, path)?, new_seed(rt)?) {
            Ok(core) => Ok(Live {
                names: Names::new(alloc, core.root()),
                reply,
                core,
            }),
            Err(unopened) => {
                let _ = eprintln!(rt; "cfs_live: {path}: {}", unopened.why);
                Err(Fault::Volume)
            }
        }
    }

    /// Asks the core what a line says, and puts the reply into the room for it. The reply is that of a legal run, and
    /// what it reports outlasts a crash.
    fn answer(&mut self, alloc: Global, line: &[u8]) {
        self.reply.clear();
        match read_line(alloc, &all_verbs(), line, &self.names) {
            Ok(Spoken { request, name }) => {
                // There is room for the name before the request is made. A core whose words are all drawn can't be
                // asked.
                if self.names.reserve().is_err() || self.core.drawn() == u32::MAX {
                    print_unread(Unread::Memory, &mut self.reply);
                    return;
                }
                let reply = self.core.ask(alloc, SESSION, &request);
                print_reply(&reply, &mut self.reply);
                match (name, reply) {
                    (Some(name), Reply::Id(to)) => self.names.bind(name, Bound::Permanent(to)),
                    (Some(name), Reply::Grant(to)) => self.names.bind(name, Bound::Temporary(to)),
                    _ => {}
                }
            }
            Err(ScriptFault::Syntax) => print_unread(Unread::Syntax, &mut self.reply),
            Err(ScriptFault::NoName) => print_unread(Unread::NoName, &mut self.reply),
            Err(ScriptFault::Memory) => print_unread(Unread::Memory, &mut self.reply),
        }
    }

    /// Answers the lines of standard input, each by one write.
    fn serve(&mut self, rt: &HostRuntime, alloc: Global) -> Result<(), Fault> {
        let input = BufReader::new(alloc, rt.stdin()).map_err(|_| Fault::Memory)?;
        for line in input.split(alloc, b'\n') {
            let line = line.map_err(|_| Fault::Input)?;
            // Blank lines and comments get no reply.
            let Some(next) = next_line(line.as_slice()) else {
                continue;
            };
            self.answer(alloc, next.line);
            let text = self.reply.as_slice();
            rt.stdout().write_all(text).map_err(|_| Fault::Output)?;
            // Where this stops the core, the next reply tells so. Else what is left is done before the next change.
            let _ = tidy_all(&mut self.core);
        }
        Ok(())
    }

    /// Ends the session, which gives up its drafts, and makes one collection, which removes what the root no longer
    /// leads to.
    fn end(self, alloc: Global) -> Result<(), Fault> {
        let Live { mut core, .. } = self;
        core.leave(SESSION).map_err(|_| Fault::Disk)?;
        core.call_for(1);
        for _ in 0..core.most_steps() {
            // A step is made only if nothing is left of a commit.
            tidy_all(&mut core).map_err(|_| Fault::Disk)?;
            match core.collect(alloc) {
                Ok(Step::Idle) => break,
                Ok(_) => {}
                Err(CollectFault::Memory) => return Err(Fault::Memory),
                Err(_) => return Err(Fault::Disk),
            }
        }
        Ok(())
    }
}

/// Serves the volume that the program's one word names.
fn run(rt: &HostRuntime, alloc: Global) -> Result<(), Fault> {
    let mut words = env::args(rt).map_err(|_| Fault::Words)?.skip(1);
    let (Some(path), None) = (words.next(), words.next()) else {
        return Err(Fault::Words);
    };
    let mut live = Live::open(rt, alloc, path.as_str())?;
    let served = live.serve(rt, alloc);
    served.and(live.end(alloc))
}

fn main(rt: HostRuntime) -> ExitCode {
    match run(&rt, rt.alloc()) {
        Ok(()) => ExitCode::SUCCESS,
        Err(fault) => ExitCode::from(fault as u8),
    }
}
