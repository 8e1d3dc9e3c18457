//! Plays the cases of the files that its words name: whole runs of `nanolog` over files and outputs in memory. Of each
//! it shows what was printed, what was said, how the run ended, and what the files hold then.
//!
//! A file of cases has lines, and blocks of lines that are indented by two spaces and belong to the line in front. A
//! line that begins with `#` is a remark. What stands in front of the first `case TITLE` are texts for all cases.
//!
//! | Line | What it does |
//! |---|---|
//! | `text FILE`, `bytes FILE` | the block is what the file holds: lines, or hexadecimal digits |
//! | `file FILE TEXT` | the file holds one of the texts for all cases |
//! | `edit FILE OLD => NEW` | in the file, NEW stands where OLD stood first |
//! | `put FILE PLACE DIGITS` | in the file, these bytes stand from that place on |
//! | `cut FILE COUNT`, `from FILE PLACE` | the file has its first COUNT bytes only, or those from PLACE on |
//! | `piece COUNT` | one call of a file or an output moves COUNT bytes at most; else 16 |
//! | `fail files NUMBER..`, `fail output ..`, `fail errors ..` | these calls of a run fail, counted from 0 |
//! | `run WORD..` | runs `nanolog` on the words, and shows what it printed and said; `''` is an empty word |
//! | `run WORD.. > FILE` | so too, but what it printed becomes the file |
//! | `show FILE`, `dump FILE`, `size FILE` | shows what the file holds, as lines, as bytes, or by their number |
//! | `same FILE FILE` | shows whether the two hold the same |
//! | `each FROM TO`, `rows` | the case is played for each of the numbers, or for each line of the block |
//!
//! In a case with numbers or rows `@` stands for the number or the row, and `@left` and `@right` for what stands in
//! front of ` => ` and behind. Where neighbours end the same, that is shown once. A `¶` is a line feed, and `{3*ab}`
//! is `ababab`. A line that can't be read or done is shown behind `? `, with its number.
//!
//! Lines that were printed are shown behind two spaces, and lines of the standard error behind `! `; a backslash ends a
//! text that no line feed ends. `{xx}` is a byte that is no printed character of ASCII, and `{50*x}` stands for so many
//! of the same character or line.
#![tactic(auto)]

mod case;
mod files;
mod filling;
mod playing;
mod scene;
mod showing;

use anyhow::Result;
use case::cases_of;
use playing::play_cases;
use std::{env, fs};

fn main(rt: HostRuntime) -> Result<()> {
    let names: Vec<String> = env::args(&rt)?.skip(1).collect(rt.alloc())?;
    for name in &names {
        let text = fs::read_to_string(&rt, name.as_str())?;
        let cases = cases_of(rt.alloc(), text.as_str())?;
        let shown = play_cases(rt, rt.alloc(), name.as_str(), &cases)?;
        print!(rt; "{shown}")?;
    }
    Ok(())
}
