//! Lines out of a source, one at a time.
ghost use Rattle.std.specs.Prelude.{◌≡◌, ◌⊎◌, ◌≤◌, ◌<◌, ◌+◌, ◌-◌, ◌^◌, [], ℕ, length, false, true, IsTrue, List, take, drop, min, IfSome, IfNone};
ghost use Rattle.arrayvec.specs.ArrayVec.{array_vec_len};
ghost use Rattle.text_spec.specs.Lines.{without_return};
ghost use Rattle.text_spec.specs.declared.lines.TheConstants.{MAX_LINE_BYTES};
ghost use Rattle.dm_io.specs.Lines.{next_at_end, BeginsLine, has_newline, number_after};
ghost use Rattle.dm_io.specs.Streams.{Rose};

use crate::lines::{Next, newline_after, next_of, shown_length};
use crate::streams::{Source, Take};
use arrayvec::ArrayVec;
use text_spec::MAX_LINE_BYTES;

/// Reads the lines of a source as they come. It holds at most one byte more than [`MAX_LINE_BYTES`] that were taken and
/// belong to no line that was read, and takes more only while no whole line waits among them.
///
/// A line ends at a newline or at the end of the source; what ends right after a newline has no further line. One
/// carriage return that stands last in a line isn't shown.
///
/// ```text
/// source   a b \n c \r \n \n d        at most 20 bytes
/// next     Line "ab", Line "c", Line "", Line "d", End
/// ```
#[derive(Drop)]
pub struct LineReader {
    held: ArrayVec<u8, 20001>,
    start: usize,
    line_start: usize,
    line_length: usize,
    limit: u64,
    bytes_read: u64,
    number: u64,
    ended: bool,
    ghost ordered: { start ≤ array_vec_len held },
    ghost line_within: { line_start + line_length ≤ array_vec_len held },
    ghost kept: { bytes_read + (array_vec_len held - start) ≤ limit },
    ghost spent: { IsTrue ended → start ≡ array_vec_len held },
    ghost low: { limit < 2 ^ 63 },
    ghost number_fits: { number < 2 ^ 64 },
}

/// What came of asking the source for more.
#[derive(Clone, Copy, Debug)]
enum More {
    Came,
    Nothing,
    Broken,
    Beyond,
}

/// Drops the first bytes.
fn drop_prefix(held: &mut ArrayVec<u8, 20001>, count: usize)
    requires { count ≤ array_vec_len held.old }
    ensures { held.new.items ≡ drop count held.old.items }
{
    if count == 0 {
        return;
    }
    let rest = held.len() - count;
    held.as_mut_slice().copy_within(count.., 0);
    held.truncate(rest);
}

impl LineReader {
    ghost use Rattle.dm_io.specs.Reader.{bytes_read, Gets, limit_of, line_in, lines_read, Reads, saw_end, Skips, waiting, Waits};

    /// A reader of at most `limit` bytes, newlines counted.
    pub fn new(limit: u64) -> LineReader
        requires { limit < 2 ^ 63 }
        ensures waiting { waiting result ≡ [] }
        ensures line { line_in result ≡ [] }
        ensures bytes_read { bytes_read result ≡ 0 }
        ensures number { lines_read result ≡ 0 }
        ensures limit { limit_of result ≡ limit }
        ensures goes_on { saw_end result ≡ false }
    {
        LineReader {
            held: ArrayVec::new(),
            start: 0,
            line_start: 0,
            line_length: 0,
            limit,
            bytes_read: 0,
            number: 0,
            ended: false,
        }
    }

    /// The line that was read last where that came as `Line`, without its newline and a carriage return before it.
    pub fn bytes(&self) -> &[u8]
        ensures { result.now ≡ line_in self.now }
    {
        &self.held.as_slice()[self.line_start..self.line_start + self.line_length]
    }

    /// How many lines were read. The number stands still at its last value.
    pub fn number(&self) -> u64
        ensures { result ≡ lines_read self.now }
    {
        self.number
    }

    /// Reads the next line. It takes from the source only while no whole line waits, at most 4096 bytes at once, and
    /// takes no memory. After `End` comes `End` again. After `Failed` and `Over` it may be asked again, and goes on
    /// with the bytes that wait; but the beginning of a line that is too long was dropped then, so that its rest may
    /// pass for a line.
    ///
    /// Cost: one pass over the bytes of the line; each byte that is taken is copied at most twice.
    pub fn next<S: Source>(&mut self, source: &mut S) -> Next
        ensures reads { Reads self.old self.new (S.left source.old) (S.left source.new) result }
        ensures waits { Waits self.old (S.left source.old) (S.left source.new) result }
        ensures number { lines_read self.new ≡ number_after (lines_read self.old) result }
        ensures limit { limit_of self.new ≡ limit_of self.old }
        ensures within { bytes_read self.new + length (waiting self.new) ≤ limit_of self.new }
        ensures only_on_fault { result ≡ Next.Failed → Rose (S.faults source.old) (S.faults source.new) }
        ensures faults_stay { (result ≡ Next.Failed) ⊎ (S.faults source.new ≡ S.faults source.old) }
    {
        if self.ended {
            return Next::End;
        }
        let mut seen = 0;
        let mut long = false;
        'pieces: loop {
            if let Some(count) = self.whole_line(seen) {
                self.show(count, 1);
                return next_of(long);
            }
            let full = self.skip_full();
            long = long || full;
            seen = self.held.len() - self.start;
            match self.more(source) {
                More::Came => {}
                More::Nothing => return self.next_at_end(long),
                More::Broken => return Next::Failed,
                More::Beyond => return Next::Over,
            }
        }
    }

    /// The length of the first line that waits whole, where the first `seen` bytes that wait have no newline.
    fn whole_line(&self, seen: usize) -> Option<usize>
        requires within { seen ≤ length (waiting self.now) }
        requires plain { has_newline (take seen (waiting self.now)) ≡ false }
        ensures some { IfSome result (λ count. BeginsLine (waiting self.now) count) }
        ensures none { IfNone result (has_newline (waiting self.now) ≡ false) }
    {
        newline_after(&self.held.as_slice()[self.start..], seen)
    }

    /// Drops the bytes that wait where they are too many for a line. Whether they were.
    fn skip_full(&mut self) -> bool
        ensures skips { (gone : List ℕ) × Skips self.old self.new result gone }
        ensures number { lines_read self.new ≡ lines_read self.old }
        ensures limit { limit_of self.new ≡ limit_of self.old }
        ensures goes_on { saw_end self.new ≡ saw_end self.old }
    {
        let count = self.held.len() - self.start;
        if count <= MAX_LINE_BYTES {
            return false;
        }
        self.bytes_read += count as u64;
        self.start = self.held.len();
        true
    }

    /// Reads what waits at the end of the source as a line.
    fn next_at_end(&mut self, long: bool) -> Next
        requires goes_on { saw_end self.old ≡ false }
        ensures next { result ≡ next_at_end long (length (waiting self.old)) }
        ensures line { result ≡ Next.Line → line_in self.new ≡ without_return (waiting self.old) }
        ensures rest { waiting self.new ≡ [] }
        ensures counted { bytes_read self.new ≡ bytes_read self.old + length (waiting self.old) }
        ensures number { lines_read self.new ≡ number_after (lines_read self.old) result }
        ensures limit { limit_of self.new ≡ limit_of self.old }
        ensures ended { saw_end self.new ≡ true }
    {
        let count = self.held.len() - self.start;
        if !long && count == 0 {
            self.ended = true;
            return Next::End;
        }
        self.show(count, 0);
        self.ended = true;
        next_of(long)
    }

    /// Shows the first `count` bytes that wait as a line, and takes them and `newline` bytes more off those that wait.
    fn show(&mut self, count: usize, newline: usize)
        requires inside { count + newline ≤ length (waiting self.old) }
        requires one { newline ≤ 1 }
        ensures line { line_in self.new ≡ without_return (take count (waiting self.old)) }
        ensures rest { waiting self.new ≡ drop (count + newline) (waiting self.old) }
        ensures counted { bytes_read self.new ≡ bytes_read self.old + count + newline }
        ensures number { lines_read self.new ≡ min (lines_read self.old + 1) (2 ^ 64 - 1) }
        ensures limit { limit_of self.new ≡ limit_of self.old }
        ensures goes_on { saw_end self.new ≡ saw_end self.old }
    {
        self.line_start = self.start;
        self.line_length = shown_length(&self.held.as_slice()[self.start..self.start + count]);
        self.start += count + newline;
        self.bytes_read += (count + newline) as u64;
        self.number = self.number.saturating_add(1);
    }

    /// Takes more bytes from the source: one at the limit, and else at most up to the limit.
    fn more<S: Source>(&mut self, source: &mut S) -> More
        requires room { length (waiting self.old) ≤ MAX_LINE_BYTES }
        requires goes_on { saw_end self.old ≡ false }
        ensures gets { Gets self.old self.new (S.left source.old) (S.left source.new) result }
        ensures bytes_read { bytes_read self.new ≡ bytes_read self.old }
        ensures number { lines_read self.new ≡ lines_read self.old }
        ensures limit { limit_of self.new ≡ limit_of self.old }
        ensures goes_on { saw_end self.new ≡ false }
        ensures only_on_fault { result ≡ More.Broken → Rose (S.faults source.old) (S.faults source.new) }
        ensures faults_stay { (result ≡ More.Broken) ⊎ (S.faults source.new ≡ S.faults source.old) }
    {
        self.line_start = 0;
        self.line_length = 0;
        let start = self.start;
        self.start = 0;
        drop_prefix(&mut self.held, start);
        let rest = self.limit - self.bytes_read - self.held.len() as u64;
        let mut chunk = [0; 4096];
        if rest == 0 {
            return match source.take(&mut chunk[..1]) {
                Take::Got(_count) => More::Beyond,
                Take::End => More::Nothing,
                Take::Failed => More::Broken,
            };
        }
        let want = rest.min(4096).min(self.held.remaining_capacity() as u64) as usize;
        match source.take(&mut chunk[..want]) {
            Take::Got(count) => {
                self.held.try_extend_from_slice(&chunk[..count]).unwrap();
                More::Came
            }
            Take::End => More::Nothing,
            Take::Failed => More::Broken,
        }
    }
}
