//! Files in memory.
ghost use Rattle.std.specs.Prelude.{◌≡◌, ◌<◌, ◌≤◌, Some, OnOk, OnErr, length, vec_len};
ghost use Rattle.std.specs.Option.{ForSome};
ghost use Rattle.dm_io.specs.Contents.{opened_content, place_of};

use crate::calls::{Calls, copy_prefix};
use crate::streams::{Files, OpenFailed, Source, Take};

/// Files in memory. The openings and takes whose numbers are listed, counted together from 0, fail, and so do openings
/// of a name that isn't there; no others do. So the count of faults never rises where none is listed and each name that
/// is asked for is there.
#[derive(Drop)]
pub struct MemFiles {
    names: Vec<String>,
    contents: Vec<Vec<u8>>,
    opened: Option<usize>,
    at: usize,
    most: usize,
    calls: Calls,
    ghost paired: { vec_len contents ≡ vec_len names },
    ghost there: { ForSome opened (λ k. k < vec_len contents) },
    ghost inside: { at ≤ length (opened_content contents.items opened) },
    ghost some: { 1 ≤ most },
}

/// The place of the first name that equals `name`.
fn place_of(names: &[String], name: &str) -> Option<usize>
    ensures { result ≡ place_of names.now name.now }
{
    names.iter().position(|n| n.as_str() == name)
}

impl MemFiles {
    ghost use Rattle.std.specs.Prelude.{[]};
    ghost use Rattle.dm_io.specs.Calls.{IsFresh};
    ghost use Rattle.dm_io.specs.Files.{file_bytes_left, file_held, files_calls, files_most};
    ghost use Rattle.dm_io.specs.Contents.{content_of};

    /// Files with these names and contents, of which at most `most` bytes a call are given. The openings and takes
    /// numbered in `fails` fail. Nothing is open yet, so nothing is left. Of two files of one name the first is seen.
    pub fn new(names: Vec<String>, contents: Vec<Vec<u8>>, most: usize, fails: Vec<u64>) -> MemFiles
        requires some { 1 ≤ most }
        requires paired { vec_len contents ≡ vec_len names }
        ensures holds { file_held result ≡ content_of names.items contents.items }
        ensures left { file_bytes_left result ≡ [] }
        ensures most { files_most result ≡ most }
        ensures calls { IsFresh (files_calls result) fails.items }
    {
        MemFiles {
            names,
            contents,
            opened: None,
            at: 0,
            most,
            calls: Calls::new(fails),
        }
    }

    /// The bytes of the open file that weren't given yet.
    fn rest(&self) -> &[u8]
        ensures { result.now ≡ file_bytes_left self.now }
    {
        match self.opened {
            Some(place) => &self.contents[place][self.at..],
            None => &[],
        }
    }
}

impl Source for MemFiles {
    ghost use Rattle.dm_io.specs.Calls.{fault_count, GoesOn};
    ghost use Rattle.dm_io.specs.Files.{file_bytes_left, files_calls, files_most, file_answer, SameFiles};
    ghost use Rattle.dm_io.specs.Streams.{Takes, TakeCounts};

    ghost left = { λ f. Some (file_bytes_left f) };

    ghost faults = { λ f. fault_count (files_calls f) };

    fn take(&mut self, into: &mut [u8]) -> Take
        requires { 0 < length into.old }
        ensures answer { result ≡ file_answer self.old (length into.old) }
        ensures bytes { Takes (Some (file_bytes_left self.old)) (Some (file_bytes_left self.new)) into.new result }
        ensures count { TakeCounts (fault_count (files_calls self.old)) (fault_count (files_calls self.new)) result }
        ensures files { SameFiles self.old self.new }
        ensures calls { GoesOn (files_calls self.old) (files_calls self.new) }
    {
        if self.calls.count() {
            self.calls.fail();
            return Take::Failed;
        }
        let count = copy_prefix(self.rest(), self.most, into);
        if count == 0 {
            return Take::End;
        }
        self.at += count;
        Take::Got(count)
    }

    ghost fits = { λ f. f.calls.faults_fit };
}

impl Files for MemFiles {
    ghost use Rattle.std.specs.Prelude.{true};
    ghost use Rattle.dm_io.specs.Calls.{fault_count, GoesOn};
    ghost use Rattle.dm_io.specs.Files.{file_bytes_left, file_held, files_calls, open_answer, SameFiles};
    ghost use Rattle.dm_io.specs.Streams.{Rose};

    ghost holds = { file_held };

    ghost allows = { λ _ _. true };

    fn open_file(&mut self, name: &str) -> Result<(), OpenFailed>
        ensures answer { result ≡ open_answer self.old name.now }
        ensures opened { OnOk result (Some (file_bytes_left self.new) ≡ file_held self.old name.now) }
        ensures faults_stay { OnOk result (fault_count (files_calls self.new) ≡ fault_count (files_calls self.old)) }
        ensures stays { OnErr result (file_bytes_left self.new ≡ file_bytes_left self.old) }
        ensures only_on_fault { OnErr result (Rose (fault_count (files_calls self.old)) (fault_count (files_calls self.new))) }
        ensures files { SameFiles self.old self.new }
        ensures calls { GoesOn (files_calls self.old) (files_calls self.new) }
    {
        if self.calls.count() {
            self.calls.fail();
            return Err(OpenFailed);
        }
        let Some(place) = place_of(&self.names, name) else {
            self.calls.fail();
            return Err(OpenFailed);
        };
        self.opened = Some(place);
        self.at = 0;
        Ok(())
    }
}
