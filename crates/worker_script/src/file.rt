ghost use Rattle.std.specs.Prelude.{◌≡◌, ◌<◌, not, true, cond, take, Some, None, IfOk, OnOk, length};
ghost use Rattle.std.specs.BTreeSet.{Updates};
ghost use Rattle.std.specs.List.{list_any};
ghost use Rattle.sid_core.specs.declared.limits.TheConstants.{MAX_FILES};
ghost use Rattle.worker_script.specs.Lines.{are_file_numbers, is_place, first_fault, file_faults, file_line};
ghost use Rattle.worker_script.specs.Reader.{draft_of, place_cmp, IsReader, Finds, Reads};
ghost use Rattle.worker_script.specs.Numbers.{file_numbers};

use crate::fault::Fault;
use crate::line::Line;
use crate::numeral::{number_u32, number_u64};
use crate::reader::Reader;
use crate::reason::Reason;
use crate::text::{is_short, text};
use sid_core::{FileInfo, MAX_FILES, OutOfMemory};

/// The numbers of a line `file F DEV INODE PATH NAME`.
#[derive(Clone, Copy)]
pub(crate) struct FileNumbers {
    pub file: u32,
    pub dev: u64,
    pub inode: u64,
}

fn file_numbers(line: &Line<'_>) -> Option<FileNumbers>
    ensures { result ≡ cond (are_file_numbers line.now) (Some (file_numbers line.now)) None }
{
    Some(FileNumbers {
        file: number_u32(line.token(1))?,
        dev: number_u64(line.token(2))?,
        inode: number_u64(line.token(3))?,
    })
}

impl Reader {
    // What makes a file line bad before its place and its texts are looked at, or its numbers.
    fn file_fault(&self, line: &Line<'_>) -> Result<FileNumbers, Reason>
        requires { IsReader self.now }
        ensures fault { Finds (first_fault (take 5 (file_faults (draft_of self.now) line.now))) (file_numbers line.now) result }
        ensures room { IfOk result (λ _. length self.now.files < MAX_FILES) }
    {
        if line.len() != 6 {
            return Err(Reason::WrongLength);
        }
        let Some(numbers) = file_numbers(line) else {
            return Err(Reason::WrongNumber);
        };
        if self.current.is_some() {
            return Err(Reason::LateDeclaration);
        }
        if numbers.file as usize != self.files.len() + 1 {
            return Err(Reason::NotNext);
        }
        if MAX_FILES <= self.files.len() {
            return Err(Reason::TooManyFiles);
        }
        Ok(numbers)
    }

    // Takes a place, and tells whether no file was there.
    fn take_place(&mut self, dev: u64, inode: u64) -> Result<bool, OutOfMemory>
        requires { IsReader self.old }
        ensures free { IfOk result (λ free. free ≡ not (list_any (is_place dev inode) self.old.files)) }
        ensures places { OnOk result (Updates place_cmp self.old.places self.new.places (dev, inode) true) }
        ensures others { self.new ≡ record self.old { places = self.new.places } }
    {
        let free = self.places.insert((dev, inode))?;
        Ok(free)
    }

    #[tactic(auto, unfolding(crate::specs::Lines::file_line, crate::specs::Lines::file_fault))]
    pub fn file_line(&mut self, line: &Line<'_>) -> Result<(), Fault>
        requires { IsReader self.old }
        ensures { Reads (file_line (draft_of self.old) line.now) self.new result }
    {
        let numbers = self.file_fault(line)?;
        if !self.take_place(numbers.dev, numbers.inode)? {
            return Err(Fault::Bad(Reason::KnownPlace));
        }
        if !(is_short(line.token(4)) && is_short(line.token(5))) {
            return Err(Fault::Bad(Reason::LongText));
        }
        let path = text(self.alloc, line.token(4))?;
        let name = text(self.alloc, line.token(5))?;
        self.files.push(FileInfo {
            dev: numbers.dev,
            inode: numbers.inode,
            path,
            name,
        })?;
        Ok(())
    }
}
