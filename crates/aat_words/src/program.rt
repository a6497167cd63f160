//! The program's command.

use crate::commands::{
    batch_command, bench_command, check_command, dump_command, faults_command, inspect_command,
    settled_command, shape_command,
};
use crate::hidden_commands::{example_command, make_command, rows_command};
use clap::Command;
use std::alloc::{AllocError, Global};

/// The program's command, with those that it takes and their options, also those that help does not show. It errs only
/// where memory is wanting.
pub fn command<'a>(alloc: Global) -> Result<Command<'a>, AllocError> {
    let commands = [
        shape_command(),
        inspect_command(),
        dump_command(),
        faults_command(),
        settled_command(),
        check_command(),
        bench_command(),
        batch_command(),
        example_command(),
        rows_command(),
        make_command(),
    ];
    let mut made = Vec::new(alloc);
    for command in &commands {
        made.push(command.command(alloc)?)?;
    }
    Command::new(alloc, "aat")
        .about("Shapes text by Apple Advanced Typography, and inspects its fonts")
        .subcommand_required(true)
        .subcommands(made)
}
