//! Templates: the labels in the headers of records.
ghost use Rattle.std.specs.Prelude.{◌≡◌, ◌<◌, ◌^◌, ⊤, ℕ, List, Result, Ok, Err, IfErr, IfOk, OnErr};
ghost use Rattle.std.specs.Prelude.{string_bytes};
ghost use Rattle.std.specs.declared.alloc.AllocError.{AllocError};
ghost use Rattle.std.specs.declared.alloc.Global.{Global};
ghost use Rattle.std.specs.declared.string.String.{String};
ghost use Rattle.tabled_base.specs.declared.error.TableError.TheVariants.{Memory};
ghost use Rattle.tabled_extended.specs.RecordLines.{record_label};

use std::alloc::{AllocError, Global};
use std::marker::Model;
use tabled_base::TableError;

/// Labels the headers of records.
pub trait Template {
    // Whether the template may return the text for the record at the index.
    ghost answers: { Self → ℕ → List ℕ → Type 0 };

    // Whether the template may fail for the record at the index.
    ghost fails: { Self → ℕ → Type 0 };

    /// Returns the label of the record at an index, from 0. Fails only with `Memory`, and only
    /// where `fails` allows it.
    fn label(&self, alloc: Global, index: usize) -> Result<String, TableError>
        ensures text { IfOk result (λ text. answers self.now index (string_bytes text)) }
        ensures only { IfErr result (λ e. e ≡ Memory) }
        ensures refused { OnErr result (fails self.now index) };
}

/// Labels the record at index i with `[ RECORD i ]`.
#[derive(Clone, Copy, Debug, Drop)]
pub struct RecordTemplate;

impl Template for RecordTemplate {
    ghost answers = { λ _ index text. text ≡ record_label index };

    // Its labels are never empty, so each of them is allocated.
    ghost fails = { λ _ _. ⊤ };

    fn label(&self, alloc: Global, index: usize) -> Result<String, TableError> {
        Ok(format!(in alloc; "[ RECORD {index} ]")?)
    }
}

/// A function from indices to labels. All functions that accept every index implement it.
pub trait LabelFn {
    // Whether the function accepts every index.
    ghost callable: { Self → Type 0 };

    // Whether the function may return the result for the index.
    ghost gives: { Self → ℕ → Result (String Global) AllocError → Type 0 };

    /// Returns the label of the record with this index. Fails only if an allocation fails.
    fn text_at(&self, index: usize) -> Result<String, AllocError>
        requires { callable self.now }
        ensures { gives self.now index result };
}

impl<G: Fn(usize) -> Result<String, AllocError>> LabelFn for G {
    ghost callable = { λ g. (index : ℕ) → index < 2 ^ 64 → G.pre g index };

    ghost gives = { λ g index answer. G.post g index answer };

    fn text_at(&self, index: usize) -> Result<String, AllocError> {
        self(index)
    }
}

/// Labels each record with what a function returns for its index, from 0.
#[derive(Debug, Drop)]
pub struct FnTemplate<G: LabelFn> {
    g: G,
}

impl<G: LabelFn> Model for FnTemplate<G> {
    ghost Value = { G };

    ghost view = { λ template. template.g };

    ghost invariant = { λ template. G.callable template.g };
}

impl<G: LabelFn> FnTemplate<G> {
    /// Makes a template of a function, which must accept every index.
    pub fn new(g: G) -> FnTemplate<G>
        requires { G.callable g }
        ensures { result ≡ g }
    {
        FnTemplate { g }
    }
}

impl<G: LabelFn> Template for FnTemplate<G> {
    ghost answers = { λ g index text. (answer : String Global) × G.gives g index (Ok answer)
        × (text ≡ string_bytes answer) };

    // Exactly where the function may fail.
    ghost fails = { λ g index. (error : AllocError) × G.gives g index (Err error) };

    fn label(&self, _alloc: Global, index: usize) -> Result<String, TableError> {
        Ok(self.g.text_at(index)?)
    }
}
