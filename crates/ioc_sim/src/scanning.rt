//! Operations of a script other than events: the parts of the database, the answers of devices, the
//! time, and the scan lists.
ghost use Rattle.std.specs.Prelude.{◌≡◌, map, IfOk, OnOk};
ghost use Rattle.std.specs.FinMap.{len};
ghost use Rattle.rec_types.specs.Record.{record_rules};

use crate::machine::Machine;
use crate::sets::links_of;
use ioc_device::Answer;
use ioc_events::Reply;
use ioc_graph::parts_of_all;
use ioc_names::RecordNo;
use ioc_scan::{ListName, Listed};
use ioc_values::IocError;
use std::alloc::AllocError;

impl Machine {
    ghost use Rattle.std.specs.Prelude.{length};
    ghost use Rattle.ioc_sim.specs.Machine.{each_requested, queued_on, scanned, serve, most_served, queued_at, at_moment};
    ghost use Rattle.ioc_graph.specs.Members.{AreFirsts};
    ghost use Rattle.ioc_sim.specs.Sets.{parts_of};
    ghost use Rattle.ioc_sim.specs.SeenMachine.{machine_of};

    /// Returns, for each record, the number of the connected part that it is in, which is the
    /// number of the part's first record. Takes time close to the number of records and links.
    ///
    /// # Errors
    ///
    /// [`AllocError`] if allocation fails.
    pub fn parts(&self) -> Result<Vec<usize>, AllocError>
        ensures parts { IfOk result (λ numbers. numbers.items ≡ parts_of record_rules (machine_of self.now).world) }
        ensures firsts { IfOk result (λ numbers. AreFirsts numbers.items) }
        ensures all { IfOk result (λ numbers. length numbers.items ≡ length self.now.map.records.items) }
    {
        let records = self.map.records.as_slice();
        let links = links_of(self.alloc, records)?;
        parts_of_all(self.alloc, links.as_slice(), records.len())
    }

    /// Queues an answer for the device of a record. Refused if the record has no device.
    ///
    /// # Errors
    ///
    /// [`AllocError`] if allocation fails.
    pub fn queue(&mut self, number: RecordNo, answer: Answer) -> Result<Reply, AllocError>
        ensures { IfOk result (λ reply. record { machine = machine_of self.new; reply = reply }
            ≡ queued_at (machine_of self.old) number answer ((machine_of self.old).queued number)) }
    {
        let place = number.index();
        if place >= self.map.devices.len() {
            return Ok(Reply::Refused(IocError::NoField));
        }
        match &mut self.map.devices[place] {
            Some(device) => {
                device.queue(answer)?;
                Ok(Reply::Plain)
            }
            None => Ok(Reply::Refused(IocError::NoField)),
        }
    }

    /// Sets the time stamp of later events, in nanoseconds since 1970-01-01 00:00 UTC.
    pub fn set_moment(&mut self, moment: u64)
        ensures { machine_of self.new ≡ at_moment moment (machine_of self.old) }
    {
        self.map.begin_at(moment);
    }

    /// Puts the records of a list, if there is one, on the callback queues of their priorities, and
    /// returns how many found room. This is done for a posted event, and for an interrupt of a
    /// device.
    ///
    /// # Errors
    ///
    /// [`AllocError`] if allocation fails.
    pub fn call(&mut self, list: Option<ListName>) -> Result<u64, AllocError>
        ensures { IfOk result (λ count. record { machine = machine_of self.new; count = count } ≡ queued_on (machine_of self.old) list) }
    {
        self.scanner.call(list)
    }

    // Requests each of these records, in order.
    pub(crate) fn request_each(&mut self, listed: &[Listed]) -> Result<(), AllocError>
        ensures { OnOk result (machine_of self.new ≡ each_requested record_rules (machine_of self.old) listed.now) }
    {
        let mut rest = listed;
        while let [item, others @ ..] = rest {
            self.process_untold(item.number)?;
            rest = others;
        }
        Ok(())
    }

    /// Requests the records of a list at once, and returns how many there were at the beginning.
    ///
    /// # Errors
    ///
    /// [`AllocError`] if allocation fails.
    pub fn scan(&mut self, list: &ListName) -> Result<u64, AllocError>
        ensures { IfOk result (λ count. record { machine = machine_of self.new; count = count }
            ≡ scanned record_rules (machine_of self.old) list.now) }
    {
        let mut listed = Vec::new(self.alloc);
        self.scanner.walk(list, &mut listed)?;
        self.request_each(listed.as_slice())?;
        Ok(listed.len() as u64)
    }

    /// Serves waiting requests until none is left or 1,000 were served.
    ///
    /// # Errors
    ///
    /// [`AllocError`] if allocation fails.
    pub fn serve(&mut self) -> Result<(), AllocError>
        ensures { OnOk result (machine_of self.new ≡ serve record_rules most_served (machine_of self.old)) }
    {
        let mut turns = 1000u32;
        while turns > 0 {
            let Some(number) = self.scanner.next() else {
                return Ok(());
            };
            self.process_untold(number)?;
            turns -= 1;
        }
        Ok(())
    }
}
