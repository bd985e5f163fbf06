//! What actors ask of the job manager and of time, and that their instance shuts down.
ghost use Rattle.std.specs.Prelude.{◌≡◌, ◌++◌, false, true, map, IfOk, OnOk, Some};
ghost use Rattle.services.specs.answers.Jobs.{job_ask_of, key_by, named_by};
ghost use Rattle.services.specs.instance_rules.Desks.{is_submission};
ghost use Rattle.services.specs.instance_rules.Log as rules;
ghost use Rattle.services.specs.instance_rules.Log.{Instance, Log};
ghost use Rattle.services.specs.job_commands.Asks.{key_of, named_of, told};
ghost use Rattle.services.specs.job_service.Agrees.{HasRoom, MayIssue};
ghost use Rattle.services.specs.job_service.Times.{HasTime};
ghost use Rattle.services.specs.Agrees.{AgreesServices};
ghost use Rattle.instance.specs.Jobs.{CountsIn, IfAsked, IsNewOrder, asked_in, issues_of};
ghost use Rattle.services.specs.workload.Laws.{IsBuilt};

use services::Services;
use services::job_commands::{JobAsk, Key, Named, NamedList};
use services::kvs_txn::By;
use services::laws::shutdowns_leave_services;
use services::lists::{Bytes, Copied, ListOf};
use services::workload::{Command, InfoKey, Needed};
use std::alloc::{AllocError, Global};

/// What a command orders: nothing of jobs, time or its instance, what it asks of the job manager or
/// of time, or that its instance shuts down, of which no service is asked anything.
#[derive(Drop)]
pub enum Ordered {
    Nothing,
    Job(JobAsk),
    Shutdown,
}

/// The dependencies that a submission asks for.
fn needs_of(alloc: Global, depends: &[Needed]) -> Result<NamedList, AllocError>
    ensures { IfOk result (λ needs. map named_of needs ≡ map named_by depends.now) }
{
    let mut needs = ListOf::new(alloc);
    for need in depends {
        needs.push(Named {
            scheme: need.scheme,
            label: need.label.copy()?,
        })?;
    }
    Ok(needs)
}

/// What of a job a command asks to see.
fn key_of(key: InfoKey) -> Key
    ensures { key_of result ≡ key_by key }
{
    match key {
        InfoKey::Jobspec => Key::Jobspec,
        InfoKey::R => Key::R,
        InfoKey::Eventlog => Key::Eventlog,
    }
}

/// What a submission asks.
fn submission(
    alloc: Global,
    label: &Bytes,
    urgency: u32,
    depends: &[Needed],
    spec: &Bytes,
) -> Result<JobAsk, AllocError>
    ensures { IfOk result (λ asked. told asked
        ≡ rules.Submit label.now urgency (map named_by depends.now) spec.now) }
{
    Ok(JobAsk::Submit {
        label: label.copy()?,
        urgency,
        needs: needs_of(alloc, depends)?,
        text: spec.copy()?,
    })
}

/// What one asks who raises an exception.
fn exception(label: &Bytes, kind: &Bytes, severity: u32, note: &Bytes) -> Result<JobAsk, AllocError>
    ensures { IfOk result (λ asked. told asked
        ≡ rules.Raise label.now kind.now severity note.now) }
{
    Ok(JobAsk::Raise {
        label: label.copy()?,
        kind: kind.copy()?,
        severity,
        note: note.copy()?,
    })
}

/// What one asks who wants to see something of a job.
fn showing(label: &Bytes, key: InfoKey) -> Result<JobAsk, AllocError>
    ensures { IfOk result (λ asked. told asked ≡ rules.Info label.now (key_by key)) }
{
    Ok(JobAsk::Info {
        label: label.copy()?,
        key: key_of(key),
    })
}

/// What a command orders.
pub fn order_of(alloc: Global, command: &Command) -> Result<Ordered, AllocError>
    requires { IsBuilt command.now }
    ensures { IfOk result (λ ordered. asked_in ordered ≡ job_ask_of command.now) }
{
    Ok(Ordered::Job(match command {
        Command::Submit {
            label,
            urgency,
            depends,
            spec,
        } => submission(alloc, label, *urgency, depends.as_slice(), spec)?,
        Command::Cancel { label } => JobAsk::Cancel {
            label: label.copy()?,
        },
        Command::Raise {
            label,
            kind,
            severity,
            note,
        } => exception(label, kind, *severity, note)?,
        Command::Urgency { label, urgency } => JobAsk::Urge {
            label: label.copy()?,
            urgency: *urgency,
        },
        Command::StateOf { label } => JobAsk::StateOf {
            label: label.copy()?,
        },
        Command::Info { label, key } => showing(label, *key)?,
        Command::Jobs => JobAsk::Jobs,
        Command::Why { label } => JobAsk::Why {
            label: label.copy()?,
        },
        Command::ResultOf { label } => JobAsk::ResultOf {
            label: label.copy()?,
        },
        Command::Watch { label } => JobAsk::Watch {
            label: label.copy()?,
        },
        Command::Advance { seconds } => JobAsk::Advance { seconds: *seconds },
        Command::Shutdown => return Ok(Ordered::Shutdown),
        _ => return Ok(Ordered::Nothing),
    }))
}

/// Issues at a broker what a command orders.
pub fn order(
    services: &mut Services,
    by: By,
    broker: u32,
    ordered: Ordered,
) -> Result<(), AllocError>
    requires ready { services.old.spent ≡ false }
    requires may { IfAsked ordered (MayIssue services.old.jobs by broker) }
    requires room { IfAsked ordered (λ ask. is_submission (Some (told ask)) ≡ true
        → HasRoom services.old.jobs) }
    requires time { IfAsked ordered (HasTime services.old.jobs) }
    ensures ready { OnOk result (services.new.spent ≡ false) }
    ensures counts { OnOk result (CountsIn ordered services.old services.new) }
    ensures agrees { OnOk result ((inst : Instance) (log : Log)
        → AgreesServices services.old inst log → IsNewOrder inst log by broker ordered
        → AgreesServices services.new inst (log ++ issues_of by ordered)) }
{
    shutdowns_leave_services();
    match ordered {
        Ordered::Job(ask) => services.issue(by, broker, ask),
        Ordered::Nothing | Ordered::Shutdown => Ok(()),
    }
}
