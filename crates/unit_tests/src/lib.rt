//! Tests of the crates without state: what is copied, counted and held, and what happens where memory is wanting. They stand apart from those crates, since a
//! crate with tests is proved once more with them. What is read and written is told by rows (`document_rows`, `./test`).
#![tactic(auto)]

#[cfg(test)]
mod books;
#[cfg(test)]
mod certificates;
#[cfg(test)]
mod engine;
#[cfg(test)]
mod groups;
#[cfg(test)]
mod holders;
#[cfg(test)]
mod instances;
#[cfg(test)]
mod labels;
#[cfg(test)]
mod plain;
#[cfg(test)]
mod samples;
#[cfg(test)]
mod table;
