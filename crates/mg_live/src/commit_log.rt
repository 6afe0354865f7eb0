//! The commit log of a database: its commits, each added in one step. In memory there is only its length; contracts see the entries.
ghost use Rattle.std.specs.Prelude.{◌≡◌, ◌≢◌, ◌≤◌, ◌<◌, ◌++◌, ℕ, ◌∷◌, [], true, length, MatchBool, IfOk};
ghost use Rattle.logbook.specs.Pages.{may_write};
ghost use Rattle.mg_machine.specs.Laws.{IsPrefix};
ghost use Rattle.mg_live.specs.Adding.{AddsAfter};
ghost use Rattle.mg_live.specs.Rules.{count_word, pen_word, log_entry};
ghost use Rattle.mg_live.specs.View.{commits_view};

use crate::markers::{AddEntry, Entry, LogRule, NoGain, TakePen};
use logbook::{Offer, Pen, Seen, Start, Word};
use mg_engine::Command;
use mg_scan::Workers;
use mg_value::NoMemory;
use std::marker::Model;
use std::snapshot::Snapshot as GhostCopy;

/// A write that a seat asks for, with its number of workers. The command has no bytes here: only contracts see it, as the commit that
/// the log gets.
#[derive(Drop)]
pub(crate) struct Write {
    pub(crate) seat: usize,
    pub(crate) command: GhostCopy<Command>,
    pub(crate) workers: Workers,
}

impl Write {
    /// Makes the write of a seat. It keeps of the command only what contracts see.
    pub(crate) fn of(seat: usize, command: &Command, workers: Workers) -> Write
        ensures seat { result.seat ≡ seat }
        ensures command { result.command.value ≡ command.now }
        ensures workers { result.workers ≡ workers }
    {
        let command = GhostCopy::of(command);
        Write {
            seat,
            command,
            workers,
        }
    }
}

/// A word of the commit log.
type LogWord = Word<Entry, u64, LogRule>;

/// A prefix of the commit log that has been seen.
#[derive(Drop)]
pub struct Prefix {
    count: u64,
    pub(crate) seen: Seen<Entry, u64, LogRule>,
    ghost counted: { count ≡ length seen.log },
}

/// A new, empty commit log.
#[derive(Drop)]
pub struct CommitLog {
    count: LogWord,
    pens: LogWord,
    prefix: Prefix,
}

impl Model for CommitLog {
    ghost use Rattle.std.specs.Prelude.{◌≡◌, []};
    ghost use Rattle.logbook.specs.Pages.{Book};

    ghost Value = { Book };

    ghost use Rattle.mg_live.specs.Rules.{count_word, pen_word};

    ghost view = { λ h. h.prefix.seen.book };

    ghost invariant = { λ h. (h.count ≡ count_word h.prefix.seen.book) × (h.pens ≡ pen_word h.prefix.seen.book)
        × (h.prefix.seen.log ≡ []) };
}

/// The right to add to the commit log, which only one value has: its pen adds one entry, which names the pen for the entry after it.
#[derive(Drop)]
pub(crate) struct LogWriter {
    // counts the entries
    count: LogWord,
    // changes with the first pen
    pens: LogWord,
    pen: Pen,
}

/// An entry to be added: a write, and the pen for the entry after it.
#[derive(Drop)]
pub(crate) struct Addition {
    write: Write,
    next: Pen,
}

impl CommitLog {
    /// Makes an empty commit log, which belongs to no database yet.
    pub fn new() -> CommitLog {
        let (seen, mut first, mut second) = Seen::open(Start::alone(), 0, 0);
        let count = Word::tracked(0, &mut first);
        let pens = Word::tracked(0, &mut second);
        CommitLog {
            count,
            pens,
            prefix: Prefix { count: 0, seen },
        }
    }

    // Takes the new log apart into the right to add to it and its empty prefix. Takes no memory.
    //
    // Errors: `NoMemory` if a pen was taken from this log before.
    pub(crate) fn parts(self) -> Result<(LogWriter, Prefix), NoMemory>
        ensures writer { IfOk result (λ t. AddsAfter t.0 self []) }
        ensures prefix { IfOk result (λ t. (t.1.seen.book ≡ self) × (t.1.seen.log ≡ [])) }
    {
        let CommitLog {
            count,
            pens,
            prefix,
        } = self;
        let (first, pen) = take_pen(&pens, &prefix);
        if !first {
            return Err(NoMemory);
        }
        Ok((LogWriter { count, pens, pen }, prefix))
    }
}

// Takes a new pen, and says whether it is the first of its log. Takes no memory.
fn take_pen(pens: &LogWord, prefix: &Prefix) -> (bool, Pen)
    requires { pens.now ≡ pen_word prefix.now.seen.book }
    ensures pen { (result.1.book ≡ prefix.now.seen.book) × (result.1.nib.right ≡ may_write) }
    ensures first { result.0 ≡ true → result.1.nib.key ≡ 2 }
{
    let mut seen = prefix.seen.again();
    let mut offer: Offer<Entry, u64, LogRule, NoGain> = seen.plain::<NoGain, (), TakePen>(&());
    let mut pen = seen.no_pen();
    let found = pens.compare_exchange::<TakePen, NoGain>(0, 1, &mut seen, &mut offer, &mut pen);
    let _: LogWord = Word::tracked(0, &mut pen);
    (found == 0, pen)
}

impl LogWriter {
    /// Adds the commit of a write to the log, right after `prefix`, and returns the prefix with the commit. It cannot fail, since nothing
    /// else adds to the log. Takes no memory.
    pub(crate) fn add(&mut self, prefix: &Prefix, write: Write) -> Prefix
        requires here { AddsAfter self.old prefix.now.seen.book prefix.now.seen.log }
        requires room { length prefix.now.seen.log ≢ 18446744073709551615 }
        ensures here { AddsAfter self.new prefix.now.seen.book result.seen.log }
        ensures book { result.seen.book ≡ prefix.now.seen.book }
        ensures added { result.seen.log ≡ prefix.now.seen.log
            ++ log_entry write.seat write.command.value self.new.pen.nib.key ∷ [] }
    {
        let (_, next) = take_pen(&self.pens, prefix);
        let addition = Addition { write, next };
        let mut seen = prefix.seen.again();
        let mut offer: Offer<Entry, u64, LogRule, NoGain> = seen.plain::<
            NoGain,
            Addition,
            AddEntry,
        >(&addition);
        let count = prefix.count;
        let _ = self
            .count
            .compare_exchange::<AddEntry, NoGain>(
                count,
                count + 1,
                &mut seen,
                &mut offer,
                &mut self.pen,
            );
        let Addition { write: _, next } = addition;
        self.pen = next;
        Prefix {
            count: count + 1,
            seen,
        }
    }
}

impl Prefix {
    /// Returns the number of commits in this prefix.
    pub(crate) fn len(&self) -> u64
        ensures { result ≡ length self.now.seen.log }
    {
        self.count
    }

    /// Makes a copy of this prefix. Takes no memory.
    pub(crate) fn again(&self) -> Prefix
        ensures { result ≡ self.now }
    {
        Prefix {
            count: self.count,
            seen: self.seen.again(),
        }
    }

    /// Whether this prefix is at most as long as the other, and therefore a prefix of it: both are prefixes of one log.
    pub(crate) fn begins(&self, other: &Prefix) -> bool
        requires { self.now.seen.book ≡ other.now.seen.book }
        ensures begins { MatchBool result
            (IsPrefix (commits_view self.now.seen.log) (commits_view other.now.seen.log))
            (IsPrefix (commits_view other.now.seen.log) (commits_view self.now.seen.log)) }
        ensures shorter { MatchBool result
            (length self.now.seen.log ≤ length other.now.seen.log)
            (length other.now.seen.log < length self.now.seen.log) }
    {
        // For the proof: each of the two is a prefix of what `both` knows, so the shorter is a prefix of the longer.
        let mut both = self.seen.again();
        both.learn(&other.seen);
        self.count <= other.count
    }

    /// Returns the longer of two prefixes of one log. Both are prefixes of the result.
    #[tactic(auto, using(crate::proofs::Prefixes::begins_itself))]
    pub(crate) fn longer(self, other: &Prefix) -> Prefix
        requires { self.seen.book ≡ other.now.seen.book }
        ensures book { result.seen.book ≡ self.seen.book }
        ensures this { IsPrefix (commits_view self.seen.log) (commits_view result.seen.log) }
        ensures other { IsPrefix (commits_view other.now.seen.log) (commits_view result.seen.log) }
        ensures within { (n : ℕ) → length (commits_view self.seen.log) ≤ n
            → length (commits_view other.now.seen.log) ≤ n → length (commits_view result.seen.log) ≤ n }
    {
        if self.begins(other) {
            return other.again();
        }
        self
    }
}
