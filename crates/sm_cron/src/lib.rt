//! Schedules: how they are spelled, and when each comes next.
#![tactic(auto)]

mod crons;
mod days;
mod field;
mod fields;
mod items;
mod next;
mod numbers;
mod points;
mod rates;
mod reading;
mod schedule;
mod spelling;
mod steps;

pub use schedule::{Cron, Schedule, ScheduleRefused, is_schedule_expression};
