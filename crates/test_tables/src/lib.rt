//! Tests what no contract states and `test_cases` doesn't cover: texts, priorities, options that a
//! user would write, records and their printers, whole tables, and the program.
#![tactic(auto)]

#[cfg(test)]
mod applying;
#[cfg(test)]
mod boxes;
#[cfg(test)]
mod faulty;
#[cfg(test)]
mod grids;
#[cfg(test)]
mod looks;
#[cfg(test)]
mod made;
#[cfg(test)]
mod making;
#[cfg(test)]
mod marks;
#[cfg(test)]
mod modifying;
#[cfg(test)]
mod named;
#[cfg(test)]
mod options;
#[cfg(test)]
mod printing;
#[cfg(test)]
mod priorities;
#[cfg(test)]
mod reading;
#[cfg(test)]
mod records;
#[cfg(test)]
mod report;
#[cfg(test)]
mod rows;
#[cfg(test)]
mod runs;
#[cfg(test)]
mod showing;
#[cfg(test)]
mod shown;
#[cfg(test)]
mod sinks;
#[cfg(test)]
mod sized;
#[cfg(test)]
mod texts;
#[cfg(test)]
mod try_rows;
#[cfg(test)]
mod windows;
#[cfg(test)]
mod word_wraps;
#[cfg(test)]
mod writers;
