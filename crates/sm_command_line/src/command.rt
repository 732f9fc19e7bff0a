//! The command of `secretsd`, made of its arguments.
ghost use Rattle.std.specs.Prelude.{◌≡◌, IfOk};
ghost use Rattle.clap.specs.Words.{app_of};
ghost use Rattle.sm_command_line.specs.Command.{IsApp, bare_app};

use crate::arguments::{
    connections, data, listen, log, mode, number, people, region, rotator, workers,
};
use clap::Command;
use std::alloc::{AllocError, Global};

/// The command without its arguments.
fn bare<'a>(alloc: Global) -> Command<'a>
    ensures { app_of result ≡ bare_app }
{
    Command::new(alloc, "secretsd")
        .version("0.1.0")
        .about("A server with the behaviour of AWS Secrets Manager, on one's own machine")
        .after_long_help(
            "Examples:\n  \
             secretsd --mode serve --data secrets\n      \
             serves at 127.0.0.1:7777 until it is stopped, and keeps the secrets in a folder\n  \
             secretsd --data secrets < messages\n      \
             answers the HTTP messages of a file on standard output, and keeps the secrets in a folder\n  \
             secretsd --mode agent --listen 127.0.0.1:7777\n      \
             reads secrets from that server for others on this machine, and keeps each for five minutes\n  \
             secretsd --mode ship --data secrets | secretsd --mode follow --data replica\n      \
             follows a folder as a replica of it, and writes how many entries it has\n  \
             secretsd --number 0 < messages\n      \
             answers them the same way in each run, and forgets the secrets at its end",
        )
        .no_binary_name(true)
}

/// The command with its arguments.
pub fn command<'a>(alloc: Global) -> Result<Command<'a>, AllocError>
    ensures { IfOk result (λ c. IsApp (app_of c)) }
{
    let arguments = vec![in alloc;
        mode(alloc),
        data(alloc),
        people(alloc),
        listen(alloc),
        rotator(alloc),
        connections(alloc),
        workers(alloc),
        number(alloc),
        region(alloc),
        log(alloc),
    ]?;
    bare(alloc).args(arguments)
}
