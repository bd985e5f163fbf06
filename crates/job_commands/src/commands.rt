//! The open job commands of an instance.
ghost use Rattle.std.specs.Prelude.{true, ◌≡◌, ◌≢◌, ◌↔◌, ℕ, ◌<◌, ◌≤◌, ◌++◌, List, [], ◌∷◌, None, Some, Option, All, Contains, false, IfNone, IfOk, IfSome, OnErr, OnOk, filter, filter_map, find, length, map, not, option_and_then, replicate, slice_index};
ghost use Rattle.std.specs.List.{list_any};
ghost use Rattle.instance_rules.specs.Desks.{Begins, Names, StandsAsked, is_submission};
ghost use Rattle.instance_rules.specs.Log.{Instance, IsInstance, Born as Started, Gone, IsPending, Issued, JobAsk as Asks, JobReply, Log, Named as Needs, Replied, Submit as Submission, is_decided, is_issued, is_replied, now_of};
ghost use Rattle.instance_rules.specs.Replies.{AsksForEvent};
ghost use Rattle.kvs_txn.specs.declared.txn.By.{By as Command};
ghost use Rattle.kvs_txn.specs.declared.txn.Group.{Group};
ghost use Rattle.manager_rules.specs.Scene.{IsAsked, has_living_child};
ghost use Rattle.manager_rules.specs.declared.asked.Asked.{Asked as Question};
ghost use Rattle.job_commands.specs.Agrees.{AgreesCommands, HasUniqueLabels, IsIdOf, RowAgrees};
ghost use Rattle.job_commands.specs.Asks.{submitted_label, told};
ghost use Rattle.job_commands.specs.Children.{all_children, born_child, ended, is_living_of};
ghost use Rattle.job_commands.specs.declared.child.Child.{Child as Born};
ghost use Rattle.job_commands.specs.Desks.{asked_by, asked_in, asked_of};
ghost use Rattle.job_commands.specs.Moments.{CarriesOut, landing};
ghost use Rattle.job_commands.specs.Rows.{AreCarried, AreMarkedBy, is_of, issued_row, job_at, mark_at, unmarked};
ghost use Rattle.job_commands.specs.declared.row.Row.{Row as Open};

use crate::ask::JobAsk;
use crate::child::{Child, asked_child, end, is_living};
use crate::labels::Labels;
use crate::row::{Row, Stage, carry, forget, row_of};
use crate::tally::{Tally, UNISSUED, mark_now};
use kvs_txn::By;
use lists::{Bytes, Copied};
use manager_rules::{Asked, OpenList};
use std::alloc::{AllocError, Global};
use std::marker::Model;

/// The open job commands, the jobs that labels name, how many submissions were issued at each
/// broker and when, and the children that jobs have had.
#[derive(Drop)]
pub struct Commands {
    alloc: Global,
    labels: Labels,
    rows: Vec<Row>,
    tallies: Vec<Tally>,
    children: Vec<Child>,
}

impl Model for Commands {
    ghost use Rattle.job_commands.specs.Rows.{CommandsValue};

    ghost Value = { CommandsValue };

    ghost use Rattle.job_commands.specs.Shown.{value_of};

    ghost view = { value_of };
}

/// So many brokers at which no submission was issued.
fn unissued(alloc: Global, size: u32) -> Result<Vec<Tally>, AllocError>
    ensures { IfOk result (λ list. list.items
        ≡ replicate size (record { issued = 0; mark = unmarked })) }
{
    let mut list = Vec::new(alloc);
    list.resize(size as usize, UNISSUED)?;
    Ok(list)
}

/// What a command asks of the job that its label names.
fn asked_by(labels: &Labels, by: By, ask: &JobAsk) -> Result<Option<Asked>, AllocError>
    ensures { IfOk result (λ one. one ≡ asked_by labels.now by ask.now) }
{
    Ok(match ask {
        JobAsk::Cancel { label } => match labels.get(label.as_slice()) {
            Some(job) => Some(Asked::Cancel { by, job }),
            None => None,
        },
        JobAsk::Raise {
            label,
            kind,
            severity,
            note,
        } => match labels.get(label.as_slice()) {
            Some(job) => Some(Asked::Raise {
                by,
                job,
                kind: kind.copy()?,
                severity: *severity,
                note: note.copy()?,
            }),
            None => None,
        },
        JobAsk::Urge { label, urgency } => match labels.get(label.as_slice()) {
            Some(job) => Some(Asked::Urgency {
                by,
                job,
                urgency: *urgency,
            }),
            None => None,
        },
        _ => None,
    })
}

/// What a command that waits asks of the job that its label names.
fn asked_in(labels: &Labels, row: &Row) -> Result<Option<Asked>, AllocError>
    ensures { IfOk result (λ one. one ≡ asked_in labels.now row.now) }
{
    match row.stage {
        Stage::Waits => asked_by(labels, row.by, &row.ask),
        Stage::Landed { .. } => Ok(None),
    }
}

/// The commands that ask for events.
fn all_asked(alloc: Global, labels: &Labels, rows: &[Row]) -> Result<OpenList, AllocError>
    ensures { IfOk result (λ list. list ≡ filter_map (asked_in labels.now) rows.now) }
{
    let mut list = OpenList::new(alloc);
    for row in rows {
        if let Some(one) = asked_in(labels, row)? {
            list.put(one)?;
        }
    }
    Ok(list)
}

/// Adds children as the manager looks at them.
fn add_children(list: &mut OpenList, children: &[Child]) -> Result<(), AllocError>
    ensures { OnOk result (list.new ≡ list.old ++ all_children children.now) }
{
    for child in children {
        list.put(asked_child(child))?;
    }
    Ok(())
}

impl Commands {
    /// No commands, of so many brokers.
    pub fn new(alloc: Global, size: u32) -> Result<Commands, AllocError>
        ensures size { IfOk result (λ v. length v.issued ≡ size) }
        ensures agrees { IfOk result (λ v. (inst : Instance) → AgreesCommands v inst []) }
        ensures childless { IfOk result (λ v. v.children ≡ []) }
        ensures marked { IfOk result (λ v. (now : ℕ) → AreMarkedBy v now) }
    {
        Ok(Commands {
            alloc,
            labels: Labels::new(alloc),
            rows: Vec::new(alloc),
            tallies: unissued(alloc, size)?,
            children: Vec::new(alloc),
        })
    }

    /// A command is issued at a broker, at this second. The sequence number of a submission begins
    /// at 0 in each (Flux RFC 19).
    pub fn issue(&mut self, by: By, rank: u32, now: u64, ask: JobAsk) -> Result<(), AllocError>
        requires within { rank < length self.old.issued }
        requires few { is_submission (Some (told ask)) ≡ true
            → slice_index self.old.issued rank < 1000 }
        requires later { is_submission (Some (told ask)) ≡ true
            → (mark_at self.old.marks rank).second ≤ now }
        ensures agrees { OnOk result ((inst : Instance) (log : Log)
            → AgreesCommands self.old inst log → inst.asks by ≡ Some (told ask)
            → inst.rank by ≡ rank → now_of inst log ≡ now → inst.birth ≤ now
            → is_issued by log ≡ false
            → is_replied by log ≡ false → is_decided by log ≡ false
            → AgreesCommands self.new inst (log ++ Issued by ∷ [])) }
        ensures rows { OnOk result (self.new.rows
            ≡ self.old.rows ++ issued_row self.old by rank now ask ∷ []) }
        ensures labels { OnOk result (self.new.labels ≡ self.old.labels) }
        ensures size { OnOk result (length self.new.issued ≡ length self.old.issued) }
        ensures children { OnOk result (self.new.children ≡ self.old.children) }
        ensures marked { OnOk result (AreMarkedBy self.old now → AreMarkedBy self.new now) }
        ensures kept { OnErr result (self.new ≡ self.old) }
    {
        let place = rank as usize;
        let tally = self.tallies[place];
        let mark = mark_now(tally, now);
        let sequence = tally.issued.saturating_sub(mark.count);
        let submits = ask.is_submit();
        self.rows.push(Row {
            by,
            rank,
            ask,
            issued: now,
            sequence,
            stage: Stage::Waits,
        })?;
        if submits {
            self.tallies[place] = Tally {
                issued: tally.issued + 1,
                mark,
            };
        }
        Ok(())
    }

    /// The label under which a command submits a job, if it does.
    fn label_asked(&self, by: By) -> Result<Option<Bytes>, AllocError>
        ensures { IfOk result (λ label. label
            ≡ option_and_then (λ row. submitted_label row.ask)
            (find (is_of by) self.now.rows)) }
    {
        match row_of(self.rows.as_slice(), by) {
            Some(row) => row.ask.submitted(),
            None => Ok(None),
        }
    }

    /// The landing of this number carries out a submission that waits, and gives its job this id,
    /// which was made for it.
    pub fn submitted(&mut self, by: By, id: u64, number: u64) -> Result<(), AllocError>
        ensures agrees { OnOk result ((inst : Instance) (log : Log) (group : Group)
            (authors : List (Option Command)) (groups : List Group) (label : List ℕ) (urgency : ℕ)
            (needs : List Needs) (text : List ℕ) → AgreesCommands self.old inst log
            → HasUniqueLabels inst → IsPending by log
            → inst.asks by ≡ Some (Submission label urgency needs text)
            → IsIdOf self.old inst.birth by id → CarriesOut inst by group authors groups
            → Begins group id
            → AgreesCommands self.new inst (log ++ landing number authors groups ∷ [])) }
        ensures rows { OnOk result (AreCarried by number self.old.rows self.new.rows) }
        ensures size { OnOk result (self.new.issued ≡ self.old.issued) }
        ensures marks { OnOk result (self.new.marks ≡ self.old.marks) }
        ensures children { OnOk result (self.new.children ≡ self.old.children) }
        ensures kept { OnErr result (self.new ≡ self.old) }
    {
        let label = self.label_asked(by)?;
        self.labels.name(label, id)?;
        carry(&mut self.rows, by, number);
        Ok(())
    }

    /// The landing of this number carries out a command that asks for an event. This takes no
    /// memory.
    pub fn carried(&mut self, by: By, number: u64)
        ensures agrees { (inst : Instance) (log : Log) (group : Group)
            (authors : List (Option Command)) (groups : List Group) (ask : Asks)
            → AgreesCommands self.old inst log → inst.asks by ≡ Some ask → AsksForEvent ask
            → CarriesOut inst by group authors groups
            → AgreesCommands self.new inst (log ++ landing number authors groups ∷ []) }
        ensures rows { AreCarried by number self.old.rows self.new.rows }
        ensures labels { self.new.labels ≡ self.old.labels }
        ensures size { self.new.issued ≡ self.old.issued }
        ensures marks { self.new.marks ≡ self.old.marks }
        ensures children { self.new.children ≡ self.old.children }
    {
        carry(&mut self.rows, by, number);
    }

    /// A command is answered. This takes no memory.
    pub fn reply(&mut self, by: By)
        ensures agrees { (inst : Instance) (log : Log) (reply : JobReply) (number : Option ℕ)
            → AgreesCommands self.old inst log
            → AgreesCommands self.new inst (log ++ Replied by reply number ∷ []) }
        ensures rows { self.new.rows ≡ filter (λ row. not (is_of by row)) self.old.rows }
        ensures labels { self.new.labels ≡ self.old.labels }
        ensures size { self.new.issued ≡ self.old.issued }
        ensures marks { self.new.marks ≡ self.old.marks }
        ensures children { self.new.children ≡ self.old.children }
    {
        forget(&mut self.rows, by);
    }

    /// The job that a label names.
    pub fn job_of(&self, label: &[u8]) -> Option<u64>
        ensures job { result ≡ job_at label.now self.now.labels }
        ensures named { (inst : Instance) (log : Log) → AgreesCommands self.now inst log → (id : ℕ)
            → (result ≡ Some id) ↔ Names inst log label.now id }
    {
        self.labels.get(label)
    }

    /// A label that names a job, if one does.
    pub fn label_of(&self, job: u64) -> Option<&[u8]>
        ensures named { IfSome result (λ label. job_at label.now self.now.labels ≡ Some job) }
        ensures unnamed { IfNone result ((label : List ℕ)
            → job_at label self.now.labels ≢ Some job) }
        ensures names { IfSome result (λ label. (inst : Instance) (log : Log)
            → AgreesCommands self.now inst log → Names inst log label.now job) }
    {
        self.labels.of(job)
    }

    /// The rows of the open commands.
    pub fn rows(&self) -> &[Row]
        ensures { result.now ≡ self.now.rows }
    {
        self.rows.as_slice()
    }

    /// How many submissions were issued at a broker.
    pub fn issued(&self, rank: u32) -> u64
        ensures { result ≡ slice_index self.now.issued rank }
    {
        match self.tallies.get(rank as usize) {
            Some(tally) => tally.issued,
            None => 0,
        }
    }

    /// The second of the last submission at a broker, or 0.
    pub fn marked(&self, rank: u32) -> u64
        ensures { result ≡ (mark_at self.now.marks rank).second }
    {
        match self.tallies.get(rank as usize) {
            Some(tally) => tally.mark.second,
            None => 0,
        }
    }

    /// The row of an open command.
    pub fn row(&self, by: By) -> Option<&Row>
        ensures some { IfSome result (λ row. Contains self.now.rows row.now
            × (row.now.by ≡ by)) }
        ensures none { IfNone result ((row : Open) → Contains self.now.rows row → row.by ≢ by) }
        ensures agrees { (inst : Instance) (log : Log) → AgreesCommands self.now inst log
            → IfSome result (λ row. RowAgrees inst log row.now) }
    {
        row_of(self.rows.as_slice(), by)
    }

    /// A child is born for a job, which has had none.
    pub fn born(&mut self, job: u64) -> Result<(), AllocError>
        requires first { (c : Born) → Contains self.old.children c → c.job ≢ job }
        ensures agrees { OnOk result ((inst : Instance) (log : Log)
            → AgreesCommands self.old inst log
            → AgreesCommands self.new inst (log ++ Started job ∷ [])) }
        ensures adds { OnOk result (self.new ≡ record self.old {
          children = self.old.children ++ born_child job ∷ [];
        }) }
        ensures kept { OnErr result (self.new ≡ self.old) }
    {
        self.children.push(Child {
            job,
            living: true,
            shut: false,
        })?;
        Ok(())
    }

    /// The child of a job goes, by its own shutdown or not. This takes no memory.
    pub fn gone(&mut self, job: u64, shut: bool)
        requires had { (c : Born) × Contains self.old.children c × (c.job ≡ job) }
        ensures agrees { (inst : Instance) (log : Log) → AgreesCommands self.old inst log
            → AgreesCommands self.new inst (log ++ Gone job shut ∷ []) }
        ensures ends { self.new
            ≡ record self.old { children = map (ended job shut) self.old.children } }
    {
        end(&mut self.children, job, shut);
    }

    /// Whether a job has a living child.
    pub fn has_living_child(&self, job: u64) -> bool
        ensures exact { result ≡ list_any (is_living_of job) self.now.children }
        ensures asked { result ≡ has_living_child (asked_of self.now) job }
    {
        is_living(self.children.as_slice(), job)
    }

    /// The children that jobs have had.
    pub fn children(&self) -> Result<OpenList, AllocError>
        ensures { IfOk result (λ list. list ≡ all_children self.now.children) }
    {
        let mut list = OpenList::new(self.alloc);
        add_children(&mut list, self.children.as_slice())?;
        Ok(list)
    }

    /// The open commands that ask for events of the jobs that their labels name, and the children
    /// of jobs.
    pub fn asked(&self) -> Result<OpenList, AllocError>
        ensures exact { IfOk result (λ list. (inst : Instance) (log : Log)
            → AgreesCommands self.now inst log
            → (a : Question) → Contains list a ↔ StandsAsked inst log a) }
        ensures ranges { IfOk result (λ list. (inst : Instance) (log : Log)
            → AgreesCommands self.now inst log → IsInstance inst → All IsAsked list) }
        ensures list { IfOk result (λ list. list ≡ asked_of self.now) }
    {
        let mut list = all_asked(self.alloc, &self.labels, self.rows.as_slice())?;
        add_children(&mut list, self.children.as_slice())?;
        Ok(list)
    }
}
