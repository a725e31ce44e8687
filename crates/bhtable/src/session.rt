//! A running script: the current table, the calls gathered for it, and the replies.
//!
//! Calls are gathered and passed to the table together, since it allocates room for all their
//! replies at once. They are answered before a `new`, an `epoch` or a question, before the output
//! is written, and when 1,024 are gathered.
ghost use Rattle.std.specs.Prelude.{◌≡◌, ◌⊎◌, ◌≤◌, ◌↔◌, ℕ, List, [], ◌∷◌, ◌++◌, Option, IfErr};
ghost use Rattle.std.specs.Prelude.{IfOk, IsSome, MatchResult, OnErr, OnOk};
ghost use Rattle.std.specs.Prelude.{length, nat_eq, true};
ghost use Rattle.bhtable.specs.Answers.{Tells, fresh_table, told};
ghost use Rattle.bhtable.specs.Layout.Stops.{IsLack, IsOutputUpTo};
ghost use Rattle.bhtable.specs.Outputs.{HasAnswered};
ghost use Rattle.bhtable.specs.Requests.{AreLimits, Asks};
ghost use Rattle.bhtable.specs.Layout.Sessions.{HasEnded, HasReplied, HasStopped, HasTaken};
ghost use Rattle.bhtable.specs.Layout.Sessions.{IsBadAt, table_at_hand, table_of};
ghost use Rattle.bhtable.specs.Words.{parts_of};
ghost use Rattle.bucket_table.specs.Views.ArraysView.{IsOneMap};
ghost use Rattle.bucket_table.specs.Scripts.Calls.{Step};
ghost use Rattle.bucket_table.specs.Scripts.Hashes.{script_hash};
ghost use Rattle.bucket_table.specs.Scripts.Runs.{Run};
ghost use Rattle.bucket_table.specs.Scripts.TicketCalls.{TicketStep};

use crate::replies::Replies;
use crate::request::{Kind, NewTable, Question, Request, request_in};
use crate::stop::Stop;
use bucket_slots::bucket::{CACHE, INDEX, MAP};
use bucket_slots::lru::{DoublyLinkedList, LruList};
use bucket_table::hash_table::HashTable;
use bucket_table::script::{Call, FixedGeneration, Reply, ScriptHash, run};
use std::alloc::{AllocError, Global};
use std::io::Write;
use std::mem;

// The epoch of a fresh table, which keeps every tombstone.
const FIRST_GENERATION: FixedGeneration = FixedGeneration {
    epoch: 0,
    keep: true,
};

// The greatest number of calls passed to the table at once.
const CALLS_AT_ONCE: usize = 1024;

/// A running script.
#[derive(Drop)]
pub(crate) struct Session {
    alloc: Global,
    table: Option<Table>,
    generation: FixedGeneration,
    calls: Vec<Call<u64, u64>>,
    replies: Replies,
}

// A table of any kind.
#[derive(Drop)]
enum Table {
    Map(HashTable<u64, u64, ScriptHash, (), MAP>),
    Index(HashTable<u64, u64, ScriptHash, (), INDEX>),
    Cache(HashTable<u64, u64, ScriptHash, DoublyLinkedList, CACHE>),
}

impl Session {
    /// A script with no table yet.
    pub(crate) fn new(alloc: Global) -> Result<Self, Stop>
        ensures fresh { IfOk result (λ session.
            (start : Option (List ℕ)) → HasTaken start start session []) }
        ensures stop { IfErr result (λ stop. stop ≡ Stop.NoMemory) }
    {
        Ok(Session {
            alloc,
            table: None,
            generation: FIRST_GENERATION,
            calls: Vec::new(alloc),
            replies: Replies::new(alloc)?,
        })
    }

    /// Takes the line with this number. Its reply may wait for `write_out`.
    pub(crate) fn take<W: Write>(
        &mut self,
        number: u64,
        line: &[u8],
        output: &mut W,
    ) -> Result<(), Stop>
        requires { length line.now ≤ 4096 }
        ensures taken { (start : Option (List ℕ)) (lines : List (List ℕ))
            → HasTaken start (W.contents output.old) self.old lines
            → MatchResult result
            (λ _. HasTaken start (W.contents output.new) self.new (lines ++ line.now ∷ []))
            (λ stop. HasStopped stop start (W.contents output.new) self.new lines
            × IsBadAt stop (table_at_hand self.new.table) line.now) }
        ensures stop { IfErr result (λ stop. (stop ≡ Stop.BadLine number) ⊎ IsLack stop) }
        ensures passed_over { parts_of line.now ≡ [] → (result ≡ Ok tt) × (self.new ≡ self.old) }
    {
        match request_in(line) {
            Ok(None) => Ok(()),
            Ok(Some(Request::New(new))) => self.start(new, output),
            Ok(Some(Request::Call(call))) if self.table.is_some() => self.gather(call, output),
            Ok(Some(Request::Question(question))) if self.table.is_some() => {
                self.tell(question, output)
            }
            Ok(Some(Request::Epoch(generation))) if self.table.is_some() => {
                self.set_epoch(generation, output)
            }
            _ => Err(Stop::BadLine(number)),
        }
    }

    /// Answers every call, and writes the replies out.
    pub(crate) fn write_out<W: Write>(&mut self, output: &mut W) -> Result<(), Stop>
        ensures taken { (start : Option (List ℕ)) (lines : List (List ℕ))
            → HasTaken start (W.contents output.old) self.old lines
            → MatchResult result
            (λ _. HasAnswered lines start (W.contents output.new) []
            × HasTaken start (W.contents output.new) self.new lines)
            (λ stop. HasStopped stop start (W.contents output.new) self.new lines) }
        ensures stop { IfErr result IsLack }
    {
        self.answer(output)?;
        self.replies.write_out(output)
    }

    /// Answers and writes the rest, even after a stop, and returns how the script ended.
    pub(crate) fn finish<W: Write>(
        mut self,
        ended: Result<(), Stop>,
        output: &mut W,
    ) -> Result<(), Stop>
        ensures { (start : Option (List ℕ)) (lines : List (List ℕ))
            → HasEnded ended start (W.contents output.old) self lines
            → MatchResult result
            (λ _. HasAnswered lines start (W.contents output.new) [])
            (λ stop. IsOutputUpTo stop lines start (W.contents output.new)) }
    {
        let ended = match self.answer(output).and(ended) {
            Ok(()) => Ok(()),
            Err(stop) => self.replies.push_stop(stop, output).and(Err(stop)),
        };
        self.replies.write_out(output).and(ended)
    }

    // Replaces the current table with a fresh one.
    fn start<W: Write>(&mut self, new: NewTable, output: &mut W) -> Result<(), Stop>
        requires { AreLimits new.limits.minimum new.limits.maximum }
        ensures taken { (start : Option (List ℕ)) (lines : List (List ℕ)) (line : List ℕ)
            → HasTaken start (W.contents output.old) self.old lines
            → length line ≤ 4096 → Asks (parts_of line) (Request.New new)
            → MatchResult result
            (λ _. HasTaken start (W.contents output.new) self.new (lines ++ line ∷ []))
            (λ stop. HasStopped stop start (W.contents output.new) self.new lines) }
        ensures epoch { OnOk result ((self.new.generation.epoch ≡ 0)
            × (self.new.generation.keep ≡ true)) }
        ensures stop { IfErr result IsLack }
    {
        self.answer(output)?;
        self.table = Some(Table::new(self.alloc, new));
        self.generation = FIRST_GENERATION;
        self.replies.push(&Reply::Done, output)
    }

    // Sets the generation of the calls that follow.
    fn set_epoch<W: Write>(
        &mut self,
        generation: FixedGeneration,
        output: &mut W,
    ) -> Result<(), Stop>
        requires { IsSome self.old.table }
        ensures taken { (start : Option (List ℕ)) (lines : List (List ℕ)) (line : List ℕ)
            → HasTaken start (W.contents output.old) self.old lines
            → length line ≤ 4096 → Asks (parts_of line) (Request.Epoch generation)
            → MatchResult result
            (λ _. HasTaken start (W.contents output.new) self.new (lines ++ line ∷ []))
            (λ stop. HasStopped stop start (W.contents output.new) self.new lines) }
        ensures stop { IfErr result IsLack }
        ensures set { OnOk result (self.new.generation ≡ generation) }
    {
        self.answer(output)?;
        self.generation = generation;
        self.replies.push(&Reply::Done, output)
    }

    // Answers a question about the table.
    fn tell<W: Write>(&mut self, question: Question, output: &mut W) -> Result<(), Stop>
        requires { IsSome self.old.table }
        ensures taken { (start : Option (List ℕ)) (lines : List (List ℕ)) (line : List ℕ)
            → HasTaken start (W.contents output.old) self.old lines
            → length line ≤ 4096 → Asks (parts_of line) (Request.Question question)
            → MatchResult result
            (λ _. HasTaken start (W.contents output.new) self.new (lines ++ line ∷ []))
            (λ stop. HasStopped stop start (W.contents output.new) self.new lines) }
        ensures stop { IfErr result IsLack }
    {
        self.answer(output)?;
        match &self.table {
            Some(table) => self.replies.push(&table.tell(question), output),
            None => unreachable!(),
        }
    }

    fn gather<W: Write>(&mut self, call: Call<u64, u64>, output: &mut W) -> Result<(), Stop>
        requires { IsSome self.old.table }
        ensures taken { (start : Option (List ℕ)) (lines : List (List ℕ)) (line : List ℕ)
            → HasTaken start (W.contents output.old) self.old lines
            → length line ≤ 4096 → Asks (parts_of line) (Request.Call call)
            → MatchResult result
            (λ _. HasTaken start (W.contents output.new) self.new (lines ++ line ∷ []))
            (λ stop. HasStopped stop start (W.contents output.new) self.new lines) }
        ensures stop { IfErr result IsLack }
    {
        if self.calls.len() >= CALLS_AT_ONCE {
            self.answer(output)?;
        }
        match self.calls.push(call) {
            Ok(()) => Ok(()),
            Err(_) => Err(Stop::NoMemory),
        }
    }

    // Lets the table answer the gathered calls.
    fn answer<W: Write>(&mut self, output: &mut W) -> Result<(), Stop>
        ensures answered { (start : Option (List ℕ)) (lines : List (List ℕ))
            → HasTaken start (W.contents output.old) self.old lines
            → (self.new.calls.items ≡ []) × MatchResult result
            (λ _. HasReplied start (W.contents output.new) self.new.replies lines
            (table_at_hand self.new.table))
            (λ stop. HasStopped stop start (W.contents output.new) self.new lines) }
        ensures none { self.old.calls.items ≡ [] → (result ≡ Ok tt) × (self.new ≡ self.old)
            × (W.contents output.new ≡ W.contents output.old) }
        ensures table { IsSome self.new.table ↔ IsSome self.old.table }
        ensures stop { IfErr result IsLack }
    {
        let Some(table) = &mut self.table else {
            return Ok(());
        };
        if self.calls.is_empty() {
            return Ok(());
        }
        let calls = mem::replace(&mut self.calls, Vec::new(self.alloc));
        let Ok(answers) = table.run(self.alloc, calls, &self.generation) else {
            return Err(Stop::NoMemory);
        };
        self.replies.push_all(answers.as_slice(), output)
    }
}

impl Table {
    fn new(alloc: Global, new: NewTable) -> Self
        requires { AreLimits new.limits.minimum new.limits.maximum }
        ensures { table_of result ≡ fresh_table new }
    {
        let (minimum, maximum) = (new.limits.minimum, new.limits.maximum);
        match new.kind {
            Kind::Map => Table::Map(HashTable::new(alloc, new.hash, minimum, maximum)),
            Kind::Index => Table::Index(HashTable::new(alloc, new.hash, minimum, maximum)),
            Kind::Cache => Table::Cache(HashTable::new(alloc, new.hash, minimum, maximum)),
        }
    }

    fn run(
        &mut self,
        alloc: Global,
        calls: Vec<Call<u64, u64>>,
        generation: &FixedGeneration,
    ) -> Result<Vec<Reply<u64, u64>>, AllocError>
        ensures run { IfOk result (λ replies. Run (Step nat_eq script_hash)
            (table_of self.old).map calls.items replies.items (table_of self.new).map) }
        ensures tickets { IfOk result (λ replies. Run TicketStep
            (table_of self.old).tickets calls.items replies.items (table_of self.new).tickets) }
        ensures no_call { OnErr result (self.new ≡ self.old) }
    {
        match self {
            Table::Map(table) => run(alloc, table, calls, generation),
            Table::Index(table) => run(alloc, table, calls, generation),
            Table::Cache(table) => run(alloc, table, calls, generation),
        }
    }

    #[tactic(auto, using(crate::proofs::Telling::tells))]
    fn tell(&self, question: Question) -> Reply<u64, u64>
        ensures { Tells (table_of self.now) question result }
    {
        match self {
            Table::Map(table) => told_by(table, question),
            Table::Index(table) => told_by(table, question),
            Table::Cache(table) => told_by(table, question),
        }
    }
}

// A question about a table.
fn told_by<L: LruList, const TYPE: u8>(
    table: &HashTable<u64, u64, ScriptHash, L, TYPE>,
    question: Question,
) -> Reply<u64, u64>
    ensures told { result ≡ told table.now.arrays question }
    ensures one_map { IsOneMap nat_eq (script_hash table.now.hasher) table.now.arrays }
{
    table.fact_sound();
    match question {
        Question::Slots => Reply::Number(table.num_slots()),
        Question::Word => match table.rehashing_metadata() {
            Some(word) => Reply::Number(word),
            None => Reply::NoWork,
        },
    }
}
