//! Playing cases: their steps, once or for each of their values.

use crate::case::{Case, CaseStep};
use crate::files::{Held, change, held_by, hold};
use crate::filling::{bytes_of, filled, two_of};
use crate::scene::{CaseScene, Machine};
use anyhow::{Result, anyhow};
use std::alloc::Global;
use std::collections::BTreeMap;
use std::fmt::Write;

/// A value of a case, and what is shown for it.
#[derive(Drop)]
struct Played {
    value: String,
    shown: String,
}

/// Plays the cases of a file.
#[derive(Drop)]
struct Player<R: Drop> {
    rt: R,
    alloc: Global,
    /// The texts for all cases.
    texts: Held,
}

impl<R: Machine + Drop> Player<R> {
    /// The text of a step's block.
    fn text_of(&self, step: &CaseStep<'_>, value: Option<&str>) -> Result<String> {
        let mut text = String::new(self.alloc);
        for line in &step.block {
            text.push_str(&filled(self.alloc, line, value)?)?;
            text.push('\n')?;
        }
        Ok(text)
    }

    /// Does a step.
    fn step(&self, scene: &mut CaseScene, step: &CaseStep<'_>, value: Option<&str>) -> Result<()> {
        let alloc = self.alloc;
        let words = filled(alloc, step.rest, value)?;
        let held = &mut scene.held;
        match step.verb {
            "text" => hold(alloc, held, &words, self.text_of(step, value)?.as_bytes())?,
            "bytes" => {
                let text = self.text_of(step, value)?;
                hold(alloc, held, &words, &bytes_of(alloc, &text)?)?;
            }
            _ if step.is_values() == step.block.is_empty() => {
                return Err(anyhow!("lines are missing or too many"));
            }
            "each" | "rows" => {}
            "file" => {
                let (name, text) = two_of(&words)?;
                hold(alloc, held, name, held_by(&self.texts, text)?)?;
            }
            "piece" => scene.piece = words.parse::<usize>()?,
            "fail" => scene.fail(&words)?,
            "run" => scene.run(self.rt, &words)?,
            "same" => scene.compare(&words)?,
            "show" | "dump" | "size" => scene.show(step.verb, &words)?,
            _ => change(alloc, held, step.verb, &words)?,
        }
        Ok(())
    }

    /// Does the steps of a case. Where one can't be done, that is shown.
    fn steps(&self, case: &Case<'_>, value: Option<&str>) -> Result<CaseScene> {
        let mut scene = CaseScene::make(self.alloc);
        for step in &case.steps {
            if value.is_none() {
                push_command(&mut scene.shown, step)?;
            }
            if let Err(error) = self.step(&mut scene, step, value) {
                writeln!(scene.shown, "? line {}: {error}", step.number)?;
            }
        }
        Ok(scene)
    }

    /// Does the steps of a case for each of its values.
    fn values(&self, case: &Case<'_>, values: &[String]) -> Result<Vec<Played>> {
        let mut all = Vec::new(self.alloc);
        for value in values {
            let shown = self.steps(case, Some(value))?.shown;
            let value = value.clone()?;
            all.push(Played { value, shown })?;
        }
        Ok(all)
    }

    /// Plays a case, and shows its title and what its steps show.
    fn case(&self, shown: &mut String, case: &Case<'_>) -> Result<()> {
        writeln!(shown, "\n= {}", case.title)?;
        match case.steps.iter().find(|step| step.is_values()) {
            Some(step) if !step.block.is_empty() => {
                push_commands(shown, case)?;
                push_values(shown, step.verb, &self.values(case, &step.block)?)
            }
            _ => Ok(shown.push_str(&self.steps(case, None)?.shown)?),
        }
    }
}

/// Shows the command of a step, if it runs one.
fn push_command(shown: &mut String, step: &CaseStep<'_>) -> Result<()> {
    if step.verb == "run" {
        let space = if step.rest.is_empty() { "" } else { " " };
        writeln!(shown, "$ nanolog{space}{}", step.rest)?;
    }
    Ok(())
}

fn push_commands(shown: &mut String, case: &Case<'_>) -> Result<()> {
    for step in &case.steps {
        push_command(shown, step)?;
    }
    Ok(())
}

/// Shows values for which the same is shown: numbers by the first and the last.
fn push_group(shown: &mut String, verb: &str, group: &[Played]) -> Result<()> {
    if let ("each", [first, .., last]) = (verb, group) {
        writeln!(shown, "@ {} to {}", first.value, last.value)?;
        return Ok(());
    }
    for played in group {
        writeln!(shown, "@ {}", played.value)?;
    }
    Ok(())
}

/// Shows values, and for neighbours that end the same only once what is shown for them.
fn push_values(shown: &mut String, verb: &str, all: &[Played]) -> Result<()> {
    for group in all.chunk_by(|left, right| left.shown == right.shown) {
        push_group(shown, verb, group)?;
        if let Some(first) = group.first() {
            shown.push_str(&first.shown)?;
        }
    }
    Ok(())
}

/// Plays the cases of a file, the first of which gives the texts for the others. Answers what is shown.
pub(crate) fn play_cases(
    rt: impl Machine + Drop,
    alloc: Global,
    name: &str,
    cases: &[Case<'_>],
) -> Result<String> {
    let mut shown = format!(in alloc; "# {name}\n")?;
    let texts = BTreeMap::new(alloc);
    let mut player = Player { rt, alloc, texts };
    for case in cases {
        if case.title.is_empty() {
            let scene = player.steps(case, None)?;
            shown.push_str(&scene.shown)?;
            player.texts = scene.held;
        } else {
            player.case(&mut shown, case)?;
        }
    }
    Ok(shown)
}
