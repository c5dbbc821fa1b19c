//! The section of steps: what was done with a folder's files, when and by whom.

use crate::elements::{close_table, open_table, put, put_time, remark};
use crate::folder::{FolderFacts, TakenStep};
use markup::{Document, Tag};
use printing::Printed;

/// The heads of the columns of steps.
const HEADS: [&str; 6] = ["Step", "Time, in UTC", "What", "By", "Why", "Now"];

/// Draws the newest steps, if a folder is given.
pub(crate) fn draw_steps(page: &mut Document, folder: Option<&FolderFacts>) {
    let Some(folder) = folder else {
        return;
    };
    page.open(Tag::Section);
    put(page, Tag::Heading, "Steps");
    page.line();
    if folder.steps.is_empty() && folder.unread.is_empty() {
        remark(page, "The folder has no step.");
    } else if folder.steps.is_empty() {
        remark(
            page,
            "No step is shown: what couldn't be read is named above.",
        );
    } else {
        draw_table(page, folder.steps.as_slice());
    }
    if folder.earlier_steps > 0 {
        let earlier = folder.earlier_steps;
        remark(page, format_args!("{earlier} earlier steps aren't shown."));
    }
    page.close();
    page.line();
}

fn draw_table(page: &mut Document, steps: &[TakenStep]) {
    open_table(page, &HEADS, 6);
    for step in steps {
        draw_step(page, step);
    }
    close_table(page);
}

fn draw_step(page: &mut Document, step: &TakenStep) {
    page.open(Tag::TableRow);
    put(page, Tag::TableCell, step.number);
    page.open(Tag::TableCell);
    put_time(page, step.time.as_str());
    page.close();
    draw_text(page, step.action.as_str());
    draw_text(page, step.who.as_str());
    draw_text(page, step.why.as_str());
    draw_text(page, step.state.as_str());
    page.close();
    page.line();
}

fn draw_text(page: &mut Document, text: &str) {
    put(page, Tag::TableCell, Printed(text));
}
