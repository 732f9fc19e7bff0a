//! The words that the program takes, each with what help says of it.
ghost use Rattle.std.specs.Prelude.{◌≡◌, false};
ghost use Rattle.clap.specs.Words.{rule_of};
ghost use Rattle.sm_command_line.specs.Command.{IsModeRule, connections_rule, data_rule, listen_rule, log_rule, number_rule};
ghost use Rattle.sm_command_line.specs.Command.{option_rule, people_rule, region_rule, rotator_rule, workers_rule};

use clap::builder::ValueParser;
use clap::{Arg, ArgAction};
use sm_base::limits::{CONNECTION_WORKERS_LIMIT, ROTATION_WORKERS_LIMIT};
use std::alloc::Global;

/// The address of the server without `--listen`.
pub const LISTEN: &str = "127.0.0.1:7777";

/// The rotator without `--rotator`.
pub const ROTATOR: &str = "local";

/// The region of a replica without `--region`.
pub const REGION: &str = "us-east-1";

static MODES: [&str; 7] = ["exec", "serve", "check", "drill", "agent", "ship", "follow"];

/// An option that takes one value.
fn option<'a>(
    alloc: Global,
    name: &'a str,
    value: &'a str,
    help: &'a str,
    long_help: &'a str,
) -> Arg<'a>
    ensures rule { rule_of result ≡ option_rule name.entry.now }
    ensures global { result.global ≡ false }
{
    Arg::new(alloc, name)
        .long(name)
        .value_name(value)
        .help(help)
        .long_help(long_help)
}

/// `--mode`: what the run does.
pub fn mode<'a>(alloc: Global) -> Arg<'a>
    ensures rule { IsModeRule (rule_of result) }
    ensures global { result.global ≡ false }
{
    option(
        alloc,
        "mode",
        "MODE",
        "What the run does: exec, serve, check, drill, agent, ship or follow",
        "What the run does: exec answers the messages of standard input and ends, serve answers at an address until it \
         is stopped, check says what a folder holds, and agent answers at 127.0.0.1:2773 what it reads from a server \
         and keeps for a while; drill answers 10,000 messages that it makes of a number, and says how that went; ship \
         writes what brings a replica to the state of a folder, and follow is such a replica, of standard input.\n\
         Monitoring can use the first line of check, as in 'secrets 1 versions 1 entries 1', and its status: 0 where \
         the folder is whole, 3 where its journal is damaged, and 4 where it can't be opened or another program has \
         it.\n\
         Example: --mode serve",
    )
    .value_parser(ValueParser::Names(MODES.as_slice()))
    .default_value("exec")
}

/// `--data`: the folder that keeps the secrets.
pub fn data<'a>(alloc: Global) -> Arg<'a>
    ensures rule { rule_of result ≡ data_rule }
    ensures global { result.global ≡ false }
{
    option(
        alloc,
        "data",
        "FOLDER",
        "The folder that keeps the secrets; without it they are forgotten at the end of the run",
        "The folder that keeps the secrets from run to run. The folder has to be there; its files are made. \
         Without it all secrets are forgotten at the end of the run.\n\
         Example: --data /var/lib/secretsd",
    )
}

/// `--people`: the file that says who may call.
pub fn people<'a>(alloc: Global) -> Arg<'a>
    ensures rule { rule_of result ≡ people_rule }
    ensures global { result.global ≡ false }
{
    option(
        alloc,
        "people",
        "FILE",
        "The file that says who may call; without it everybody may",
        "The file that says who may call, a line for each access key. Without it everybody may do what no policy \
         denies.\n\
         Example: --people /etc/secretsd/people",
    )
}

/// `--listen`: the address of the server, which `--mode serve` is and `--mode agent` asks.
pub fn listen<'a>(alloc: Global) -> Arg<'a>
    ensures rule { rule_of result ≡ listen_rule }
    ensures global { result.global ≡ false }
{
    option(
        alloc,
        "listen",
        "ADDRESS",
        "The address to listen on, in mode serve, and the server that is asked, in mode agent",
        "The address to listen on, in mode serve, and that of the server that is asked, in mode agent: a host, a colon \
         and a port.\n\
         Example: --listen 127.0.0.1:8080",
    )
    .default_value(LISTEN)
}

/// `--rotator`: who makes new values.
pub fn rotator<'a>(alloc: Global) -> Arg<'a>
    ensures rule { rule_of result ≡ rotator_rule }
    ensures global { result.global ≡ false }
{
    option(
        alloc,
        "rotator",
        "local|HOST:PORT",
        "Who makes new values when a secret is rotated: the program itself, or a server",
        "Who makes new values when a secret is rotated: local is the program itself, all else the address of a \
         server that is asked.\n\
         Example: --rotator 127.0.0.1:7778",
    )
    .default_value(ROTATOR)
}

/// `--connections`: how many workers serve connections.
pub fn connections<'a>(alloc: Global) -> Arg<'a>
    ensures rule { rule_of result ≡ connections_rule }
    ensures global { result.global ≡ false }
{
    option(
        alloc,
        "connections",
        "1 to 64",
        "How many workers serve connections, in mode serve",
        "How many workers serve connections, in mode serve. Each is a thread that serves many connections, and answers \
         one request at a time. It is no limit of connections: the limit of open files is one.\n\
         Example: --connections 16",
    )
    .value_parser(ValueParser::unsigned(1, CONNECTION_WORKERS_LIMIT as u64))
    .default_value("4")
}

/// `--workers`: how many workers rotate secrets.
pub fn workers<'a>(alloc: Global) -> Arg<'a>
    ensures rule { rule_of result ≡ workers_rule }
    ensures global { result.global ≡ false }
{
    option(
        alloc,
        "workers",
        "0 to 16",
        "How many workers rotate secrets, in mode serve",
        "How many workers rotate secrets in the background, in mode serve. With 0 a rotation that is begun goes no \
         further.\n\
         Example: --workers 1",
    )
    .value_parser(ValueParser::unsigned(0, ROTATION_WORKERS_LIMIT as u64))
    .default_value("2")
}

/// `--number`: what a run without chance is made from.
pub fn number<'a>(alloc: Global) -> Arg<'a>
    ensures rule { rule_of result ≡ number_rule }
    ensures global { result.global ≡ false }
{
    option(
        alloc,
        "number",
        "NUMBER",
        "Makes the run repeatable: a fixed clock, and random bytes that count up from this number",
        "Makes the run repeatable, for tests: the clock stands still, and the random bytes count up from this number, \
         from 0 to 18446744073709551615. Secrets that are made so are no secrets. In mode ship it is the position of \
         the replica, which is 0 without it: how many entries it has.\n\
         Example: --mode exec --number 0",
    )
    .value_parser(ValueParser::unsigned(0, u64::MAX))
}

/// `--region`: the region of a replica.
pub fn region<'a>(alloc: Global) -> Arg<'a>
    ensures rule { rule_of result ≡ region_rule }
    ensures global { result.global ≡ false }
{
    option(
        alloc,
        "region",
        "REGION",
        "The region whose secrets a replica shows, in mode follow",
        "The region whose secrets a replica shows, in mode follow: those that are replicated to it.\n\
         Example: --mode follow --region eu-west-1",
    )
    .default_value(REGION)
}

/// `--log`: whether each request gets a line.
pub fn log<'a>(alloc: Global) -> Arg<'a>
    ensures rule { rule_of result ≡ log_rule }
    ensures global { result.global ≡ false }
{
    Arg::new(alloc, "log")
        .long("log")
        .help("Writes a line on standard error for each request, in mode serve")
        .long_help(
            "Writes a line on standard error for each request, in mode serve: the time, the access key, the operation, \
             the secret that was named, the status and the microseconds that it took. No value stands in it.\n\
             Example: --log",
        )
        .action(ArgAction::SetTrue)
}
