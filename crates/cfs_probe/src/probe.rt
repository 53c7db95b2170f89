//! The bench on which a volume is tried.
use crate::crashes::{Opened, crashes};
use crate::failures::{Plan, failures, formatted, open};
use crate::fault::Fault;
use crate::images::{block_of, put_block, readings};
use crate::listing::{listing, put_bytes};
use crate::printed::owned;
use crate::service::{Event, Service, happens};
use crate::twin::{Past, Twin, states};
use cfs_base::{Block, Disk};
use cfs_core::Status;
use cfs_fakes::MemoryDisk;
use std::alloc::Global;

/// A volume that a core serves, or its disk alone, the slow server beside it, and all that happened since it was
/// made.
#[derive(Drop)]
pub struct Probe {
    fails: Option<u64>,
    plan: Plan,
    service: Option<Service>,
    disk: Option<MemoryDisk>,
    twin: Option<Twin>,
    past: Vec<Past>,
    /// The moment after the opening of the volume when it was made.
    opened: u64,
    /// How many events were over at the mark, and the moment then.
    mark: (usize, u64),
}

impl Probe {
    /// Makes a probe with no volume.
    pub fn new(alloc: Global) -> Probe {
        Probe {
            fails: None,
            plan: Plan {
                cylinders: 1,
                seed: 0,
            },
            service: None,
            disk: None,
            twin: None,
            past: Vec::new(alloc),
            opened: 0,
            mark: (0, 0),
        }
    }

    fn service(&mut self) -> Result<&mut Service, Fault> {
        match &mut self.service {
            Some(service) => Ok(service),
            None => Err(Fault::Closed),
        }
    }

    fn disk(&mut self) -> Result<&mut MemoryDisk, Fault> {
        match &mut self.disk {
            Some(disk) => Ok(disk),
            None => Err(Fault::NoDisk),
        }
    }

    fn twin(&mut self) -> Result<&mut Twin, Fault> {
        match &mut self.twin {
            Some(twin) => Ok(twin),
            None => Err(Fault::Alone),
        }
    }

    /// Lets the call at this moment fail on the disks that are made from now on.
    pub fn fail(&mut self, call: u64) {
        self.fails = Some(call);
    }

    /// Makes a volume, and opens it.
    pub fn format(&mut self, alloc: Global, plan: Plan) -> Result<(), Fault> {
        self.plan = plan;
        self.service = None;
        self.forget();
        self.disk = Some(formatted(alloc, plan, self.fails)?);
        self.mount(alloc, plan.seed)?;
        let root = self.service()?.root;
        self.twin = Some(Twin::new(alloc, root, plan.seed)?);
        self.opened = self.moment()?;
        self.mark()
    }

    /// Forgets what happened, which is not done again.
    fn forget(&mut self) {
        self.twin = None;
        self.past.clear();
    }

    fn mount(&mut self, alloc: Global, seed: u64) -> Result<(), Fault> {
        let Some(disk) = self.disk.take() else {
            return Err(Fault::NoDisk);
        };
        match open(alloc, disk, seed) {
            Ok(service) => {
                self.service = Some(service);
                Ok(())
            }
            Err((why, disk)) => {
                self.disk = Some(disk);
                Err(why)
            }
        }
    }

    /// Makes the core give up its disk.
    pub fn unmount(&mut self) {
        if let Some(service) = self.service.take() {
            self.disk = Some(service.server.into_disk());
        }
    }

    /// Opens the volume again.
    pub fn reopen(&mut self, alloc: Global, seed: u64) -> Result<(), Fault> {
        self.unmount();
        self.forget();
        self.mount(alloc, seed)
    }

    /// Lets an event happen to the core, and to the slow server, and returns what is reported of it.
    pub fn does(&mut self, alloc: Global, event: Event) -> Result<String, Fault> {
        let service = self.service()?;
        let said = happens(service, alloc, &event)?;
        let end = service.server.moment();
        let (told, is_told) = match &mut self.twin {
            Some(twin) => twin.beside(alloc, &event, &said)?,
            None => (said.text.clone()?, false),
        };
        self.past.push(Past {
            event,
            text: said.text,
            end,
            is_told,
        })?;
        Ok(told)
    }

    /// Returns what the core reports of itself.
    pub fn status(&mut self) -> Result<Status, Fault> {
        Ok(self.service()?.server.status())
    }

    /// Returns the clock of the disk.
    pub fn moment(&mut self) -> Result<u64, Fault> {
        match &self.service {
            Some(service) => Ok(service.server.moment()),
            None => Ok(self.disk()?.moment()),
        }
    }

    /// Marks the moment from which crashes are tried.
    pub fn mark(&mut self) -> Result<(), Fault> {
        self.mark = (self.past.len(), self.moment()?);
        Ok(())
    }

    /// Returns what is reached from the root.
    pub fn reading(&mut self, alloc: Global) -> Result<String, Fault> {
        let service = self.service()?;
        listing(&mut service.server, alloc, service.root)
    }

    /// Returns what the slow server has.
    pub fn twin_reading(&mut self, alloc: Global) -> Result<String, Fault> {
        self.twin()?.reading(alloc)
    }

    /// Returns the bytes of a block.
    pub fn block(&mut self, alloc: Global, at: u32) -> Result<String, Fault> {
        let block = block_of(self.disk()?, at)?;
        let mut text = String::new(alloc);
        put_bytes(&mut text, block.bytes())?;
        owned(alloc, text.as_str().trim_start())
    }

    /// Puts these bytes into a block, beginning at a place.
    pub fn poke(&mut self, at: u32, place: u32, bytes: &[u8]) -> Result<(), Fault> {
        let disk = self.disk()?;
        let mut block = *block_of(disk, at)?.bytes();
        for (byte, new) in block.iter_mut().skip(place as usize).zip(bytes.iter()) {
            *byte = *new;
        }
        put_block(disk, at, &Block::of(block))
    }

    fn states(&mut self, alloc: Global) -> Result<Vec<String>, Fault> {
        let root = self.twin()?.root();
        states(alloc, root, self.plan.seed, self.past.as_slice())
    }

    /// Returns how the images of each event since the mark read.
    pub fn crashes(&mut self, alloc: Global, opened: Opened) -> Result<String, Fault> {
        let states = self.states(alloc)?;
        let Some(disk) = &self.disk else {
            return Err(Fault::NoDisk);
        };
        let past = self.past.as_slice();
        crashes(alloc, disk, past, states.as_slice(), self.mark, opened)
    }

    /// Returns what the images since the mark read as.
    pub fn readings(&mut self, alloc: Global) -> Result<Vec<String>, Fault> {
        let from = self.mark.1;
        let disk = self.disk()?;
        readings(alloc, disk, from, disk.moment())
    }

    /// Lets each call since the opening fail, and returns what comes of that.
    pub fn failures(&mut self, alloc: Global) -> Result<String, Fault> {
        let states = self.states(alloc)?;
        let past = self.past.as_slice();
        failures(alloc, self.plan, self.opened, past, states.as_slice())
    }
}
