//! What a command prints, compared with what its row wants, and the count of both.

use crate::printed::{Printed, Row, text_of};
use std::io::{self, Error};

/// Prints a command, its wanted output, the texts that are to be in it, and its output.
fn show_difference(rt: &HostRuntime, row: &Row, came: &Printed) -> io::Result<()> {
    print!(rt;
        "line {}: {}\nwanted status {}\n{}{}with\n{}came status {}\n{}{}",
        row.line,
        row.words,
        row.wanted.status,
        text_of(&row.wanted.out),
        text_of(&row.wanted.err),
        text_of(&row.parts),
        came.status,
        text_of(&came.out),
        text_of(&came.err)
    )
}

/// The number of rows, and of commands whose output or status is wrong.
#[derive(Clone, Copy)]
pub(crate) struct Count {
    pub(crate) rows: u64,
    pub(crate) wrong: u64,
}

impl Count {
    /// Prints the counts of a file of rows, and returns whether all rows are right.
    pub(crate) fn show(&self, rt: &HostRuntime, name: &str) -> io::Result<bool> {
        let printed = match self.wrong {
            0 => println!(rt; "{name}: {} rows", self.rows),
            wrong => println!(rt; "{name}: {wrong} of {} rows are wrong", self.rows),
        };
        printed?;
        Ok(self.wrong == 0)
    }

    /// Counts a command's result, and prints it if its output or its status isn't the wanted one.
    pub(crate) fn judge(
        &mut self,
        rt: &HostRuntime,
        row: &Row,
        came: &io::Result<Printed>,
    ) -> io::Result<()> {
        if row.is_compared {
            self.rows = self.rows.saturating_add(1);
        }
        let came = match came {
            Ok(came) => came,
            Err(error) => return self.fail(rt, row, *error),
        };
        if row.is_met(came) {
            return Ok(());
        }
        self.wrong = self.wrong.saturating_add(1);
        show_difference(rt, row, came)
    }

    /// Counts and prints a command that can't be run.
    pub(crate) fn fail(&mut self, rt: &HostRuntime, row: &Row, error: Error) -> io::Result<()> {
        self.wrong = self.wrong.saturating_add(1);
        println!(rt; "line {}: {}: {error}", row.line, row.words)
    }
}
