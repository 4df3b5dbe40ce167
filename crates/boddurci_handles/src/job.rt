//! Runs in three steps: ask, work, finish. `work` computes the effect on a record while other threads use the database;
//! `finish` puts it in if the page of the key is unchanged.
ghost use Rattle.std.specs.Prelude.{◌≡◌, ◌↔◌, IsTrue, IfOk, IfErr, OnOk, OnErr, true};
ghost use Rattle.sdbm_addr.specs.Database.{Database, IsDatabase};
ghost use Rattle.store_cmd.specs.Command.{IsSmall};
ghost use Rattle.store_moves.specs.Acts.{Acts};
ghost use Rattle.store_moves.specs.Works.{HasKey};
ghost use Rattle.sdbm_files.specs.Limits.{FitsFiles};
ghost use Rattle.boddurci_handles.specs.Asked.{asked_result};
ghost use Rattle.boddurci_handles.specs.Growth.{FitsWithin, has_pairs, may_grow, most_in};
ghost use Rattle.store_marks.specs.Marks.{HasMoreMarks, DifferOn};
ghost use Rattle.boddurci_handles.specs.Asked.{IsAskedOf, IsCurrent, DeniesFinish, worked_out};

use crate::growth::{lends_pairs, may_grow, most_pages};
use crate::status::Status;
use sdbm_addr::KeyBytes;
use sdbm_dir::Place;
use sdbm_files::Image;
use std::alloc::{AllocError, Global};
use std::marker::Model;
use store_cmd::{Command, Reply};
use store_marks::{Marks, put_marked};
use store_moves::{PageCopy, Worked, key_in, work_on};

/// A requested command, with the place of its key, the hash kind of the database, a snapshot of the page, and the result once
/// it is computed.
#[derive(Drop)]
pub struct Job {
    command: Command<Global>,
    place: Place,
    kind: KeyBytes,
    page: PageCopy<Global>,
    worked: Option<Worked<Global>>,
}

impl Model for Job {
    ghost use Rattle.std.specs.Prelude.{is_some};
    ghost use Rattle.boddurci_handles.specs.Asked.{Asked, IsAskedJob};

    ghost Value = { Asked };

    ghost view = { λ a. record { command = a.command; place = a.place; kind = a.kind; page = a.page; is_worked = is_some a.worked } };

    ghost invariant = { λ a. IsAskedJob (record { command = a.command; place = a.place; kind = a.kind; page = a.page; is_worked = is_some a.worked }) a.worked };
}

impl Job {
    /// Makes a job for a command that has a key. `check_sizes` must accept the command for the page size of the database. The
    /// page is shared, not copied.
    ///
    /// # Errors
    /// `AllocError` if the page's owner count is at its maximum.
    pub fn ask(image: &Image<Global>, command: Command<Global>) -> Result<Job, AllocError>
        requires keyed { HasKey command }
        requires small { IsSmall image.now.size command }
        ensures { IfOk result (λ job. IsAskedOf image.now command job) }
    {
        let place = image.place(key_in(&command));
        let page = PageCopy::of(image, place.page)?;
        let kind = image.key_bytes();
        Ok(Job {
            command,
            place,
            kind,
            page,
            worked: None,
        })
    }

    /// Computes the result of the command from the snapshot, and changes only the job. A second call gives the same result.
    ///
    /// # Errors
    /// `AllocError` if there is no memory for the reply or for the changed pages. The job is unchanged.
    pub fn work(&mut self, alloc: Global) -> Result<(), AllocError>
        ensures ok { OnOk result (self.new ≡ worked_out self.old) }
        ensures err { OnErr result (self.new ≡ self.old) }
    {
        let worked = work_on(
            alloc,
            self.page.page(),
            self.place,
            self.kind,
            self.page.page_size(),
            0,
            &self.command,
        )?;
        self.worked = Some(worked);
        Ok(())
    }

    // Returns true if the page of the key is unchanged, and the database has the same hash kind and page size.
    fn is_current(&self, image: &Image<Global>) -> bool
        ensures current { IsTrue result ↔ IsCurrent image.now self.now }
        ensures database { IsDatabase image.now }
    {
        let place = image.place(key_in(&self.command));
        if place != self.place {
            return false;
        }
        if image.key_bytes() != self.kind {
            return false;
        }
        self.page.is_still(image, place.page)
    }

    /// Executes the command as one step of a database in which the page of its key is unchanged. `limit` is the maximum number
    /// of pages of `.pag`.
    ///
    /// # Errors
    /// `NoTicket` if the job was not computed; `Changed` if the page has changed; `TooLong` if `.pag` would have more pages
    /// than the limit or the format allows; `NoMemory` if memory ran out. The database and the job are unchanged.
    pub fn finish(
        &mut self,
        image: &mut Image<Global>,
        marks: &mut Marks,
        limit: usize,
    ) -> Result<Reply<Global>, Status>
        ensures ok { IfOk result (λ reply. Acts image.old (record { session = 0; command = self.old.command; reply = reply }) image.new) }
        ensures fits { OnOk result (FitsFiles image.old → FitsFiles image.new) }
        ensures within { OnOk result (FitsWithin limit image.old → FitsWithin limit image.new) }
        ensures differ { OnOk result ((base : Database) → DifferOn marks.old base image.old → DifferOn marks.new base image.new) }
        ensures more { OnOk result (HasMoreMarks marks.old marks.new) }
        ensures unmarked { OnErr result (marks.new ≡ marks.old) }
        ensures worked { OnOk result (self.old.is_worked ≡ true) }
        ensures why { IfErr result (DeniesFinish limit image.old self.old) }
        ensures err { OnErr result (image.new ≡ image.old) }
        ensures kept { OnErr result (self.new ≡ self.old) }
    {
        if self.worked.is_none() {
            return Err(Status::NoTicket);
        }
        if !self.is_current(image) {
            return Err(Status::Changed);
        }
        if !self.may_grow(limit) {
            return Err(Status::TooLong);
        }
        match self.put(image, marks, limit) {
            Ok(reply) => Ok(reply),
            Err(_) => Err(Status::NoMemory),
        }
    }

    // Returns true if the result keeps `.pag` within the limit.
    fn may_grow(&self, limit: usize) -> bool
        ensures { self.now.is_worked ≡ true → result ≡ may_grow (most_in self.now.page.size limit) (has_pairs self.now.page.pairs) self.now.place.page (asked_result self.now).change }
    {
        match &self.worked {
            None => true,
            Some(worked) => {
                let there = lends_pairs(self.page.page());
                let most = most_pages(self.page.page_size(), limit);
                may_grow(most, there, self.place.page, &worked.change)
            }
        }
    }

    // Puts the result into the database. The result must be within the limit.
    fn put(
        &mut self,
        image: &mut Image<Global>,
        marks: &mut Marks,
        limit: usize,
    ) -> Result<Reply<Global>, AllocError>
        requires worked { self.old.is_worked ≡ true }
        requires current { IsCurrent image.old self.old }
        requires database { IsDatabase image.old }
        requires grows { may_grow (most_in self.old.page.size limit) (has_pairs self.old.page.pairs) self.old.place.page (asked_result self.old).change ≡ true }
        ensures ok { IfOk result (λ reply. Acts image.old (record { session = 0; command = self.old.command; reply = reply }) image.new) }
        ensures fits { OnOk result (FitsFiles image.old → FitsFiles image.new) }
        ensures within { OnOk result (FitsWithin limit image.old → FitsWithin limit image.new) }
        ensures differ { OnOk result ((base : Database) → DifferOn marks.old base image.old → DifferOn marks.new base image.new) }
        ensures more { OnOk result (HasMoreMarks marks.old marks.new) }
        ensures unmarked { OnErr result (marks.new ≡ marks.old) }
        ensures err { OnErr result (image.new ≡ image.old) }
        ensures kept { OnErr result (self.new ≡ self.old) }
    {
        let _ = limit;
        let Some(Worked { reply, change }) = self.worked.take() else {
            unreachable!()
        };
        match put_marked(image, marks, self.place, change) {
            Ok(()) => Ok(reply),
            Err((error, change)) => {
                self.worked = Some(Worked { reply, change });
                Err(error)
            }
        }
    }
}
