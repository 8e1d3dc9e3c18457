//! Reading a file of cases.

use anyhow::Result;
use std::alloc::Global;

/// A line that isn't indented, and the indented lines behind it.
#[derive(Drop)]
pub(crate) struct CaseStep<'a> {
    /// The line's number in the file.
    pub(crate) number: usize,
    /// Its first word.
    pub(crate) verb: &'a str,
    /// What stands behind that word and a space.
    pub(crate) rest: &'a str,
    pub(crate) block: Vec<String>,
}

impl<'a> CaseStep<'a> {
    fn make(alloc: Global, number: usize, line: &'a str) -> Result<CaseStep<'a>> {
        let (verb, rest) = line.split_once(' ').unwrap_or((line, ""));
        let block = match (verb, rest.split_once(' ')) {
            ("each", Some((from, to))) => numbers_between(alloc, from, to)?,
            _ => Vec::new(alloc),
        };
        Ok(CaseStep {
            number,
            verb,
            rest,
            block,
        })
    }

    /// Whether the lines of the block are what the case is played for.
    pub(crate) fn is_values(&self) -> bool {
        self.verb == "each" || self.verb == "rows"
    }
}

/// The numbers from the first to the last; none where these aren't numbers.
fn numbers_between(alloc: Global, from: &str, to: &str) -> Result<Vec<String>> {
    let mut numbers = Vec::new(alloc);
    if let (Ok(from), Ok(to)) = (from.parse::<u64>(), to.parse::<u64>()) {
        for number in from..=to {
            numbers.push(format!(in alloc; "{number}")?)?;
        }
    }
    Ok(numbers)
}

/// What is to be done and shown under a title.
#[derive(Drop)]
pub(crate) struct Case<'a> {
    pub(crate) title: &'a str,
    pub(crate) steps: Vec<CaseStep<'a>>,
}

impl<'a> Case<'a> {
    fn make(alloc: Global, title: &'a str) -> Case<'a> {
        Case {
            title,
            steps: Vec::new(alloc),
        }
    }

    fn push_line(&mut self, alloc: Global, number: usize, line: &'a str) -> Result<()> {
        match (line.strip_prefix("  "), self.steps.last_mut()) {
            (Some(line), Some(step)) => step.block.push(String::from_str(alloc, line)?)?,
            _ => self.steps.push(CaseStep::make(alloc, number, line)?)?,
        }
        Ok(())
    }
}

/// The cases of a file. The first has no title: its steps stand in front of all titles.
pub(crate) fn cases_of(alloc: Global, text: &str) -> Result<Vec<Case<'_>>> {
    let mut cases = Vec::new(alloc);
    let mut case = Case::make(alloc, "");
    for (place, line) in text.lines().enumerate() {
        if let Some(title) = line.strip_prefix("case ") {
            cases.push(case)?;
            case = Case::make(alloc, title);
        } else if !line.is_empty() && !line.starts_with('#') {
            case.push_line(alloc, place.saturating_add(1), line)?;
        }
    }
    cases.push(case)?;
    Ok(cases)
}
