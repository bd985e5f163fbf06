//! The terms on which the jobs of a run are served.
use crate::policy::Policy;
use tap::Weights;

/// How much of something a job may ask for.
#[derive(Clone, Copy, Debug, PartialEq, Eq)]
pub struct Limit {
    pub most: u64,
    /// What a job is told that asks for more: 1 to 99, or 0 where there is no limit.
    pub reason: u32,
}

impl Limit {
    pub const NONE: Limit = Limit { most: 0, reason: 0 };
}

/// How much a job may ask for, as the limits of a queue in Flux (RFC 33). A job without a duration
/// asks for more than each.
#[derive(Clone, Copy, Debug, PartialEq, Eq)]
pub struct Limits {
    pub duration: Limit,
    pub hosts: Limit,
    pub cores: Limit,
    pub gpus: Limit,
}

impl Limits {
    pub const NONE: Limits = Limits {
        duration: Limit::NONE,
        hosts: Limit::NONE,
        cores: Limit::NONE,
        gpus: Limit::NONE,
    };
}

/// Which events a watch shows.
#[derive(Clone, Copy, Debug, PartialEq, Eq)]
pub struct Shown {
    pub submit: bool,
    pub validate: bool,
    pub dependency_add: bool,
    pub dependency_remove: bool,
    pub depend: bool,
    pub priority: bool,
    pub urgency: bool,
    pub alloc: bool,
    pub flux_restart: bool,
    pub start: bool,
    pub finish: bool,
    pub exception: bool,
    pub release: bool,
    pub free: bool,
    pub clean: bool,
}

impl Shown {
    pub const ALL: Shown = Shown {
        submit: true,
        validate: true,
        dependency_add: true,
        dependency_remove: true,
        depend: true,
        priority: true,
        urgency: true,
        alloc: true,
        flux_restart: true,
        start: true,
        finish: true,
        exception: true,
        release: true,
        free: true,
        clean: true,
    };
}

/// The terms on which the jobs of a run are served: how they have their priorities, which of those
/// that wait may take resources, how much one may ask for, and which events its watches show.
#[derive(Clone, Copy, Debug, PartialEq, Eq)]
pub struct Terms {
    pub weights: Weights,
    pub policy: Policy,
    pub limits: Limits,
    pub shown: Shown,
}

impl Terms {
    /// Priorities by urgency alone, nobody passes the first in the queue, no limits, and all events
    /// are shown.
    pub const PLAIN: Terms = Terms {
        weights: Weights::URGENCY,
        policy: Policy::FirstFit,
        limits: Limits::NONE,
        shown: Shown::ALL,
    };
}
