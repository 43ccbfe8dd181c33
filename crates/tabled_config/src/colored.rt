//! The configuration of a `Table`, and the strings before and after a coloured part.
ghost use Rattle.std.specs.Borrow.{sem};
ghost use Rattle.std.specs.Prelude.{IfErr, IfOk, length, ◌&&◌, ◌==◌, ◌≡◌};
ghost use Rattle.tabled_base.specs.declared.error.TableError.TheVariants.{Memory};
ghost use Rattle.tabled_config.specs.Lending.{LendsConfig};

use crate::spanned::SpannedConfig;
use tabled_base::{Configuration, TableError};

/// The strings written before and after a coloured part, such as ANSI escape sequences. They take
/// no columns.
#[derive(Clone, Copy, Debug, PartialEq, Eq, PartialOrd, Ord, Hash)]
pub struct ANSIStr<'a> {
    prefix: &'a str,
    suffix: &'a str,
}

impl<'a> ANSIStr<'a> {
    /// Creates a colour from the strings before and after a part.
    pub fn new(prefix: &'a str, suffix: &'a str) -> ANSIStr<'a>
        ensures prefix { result.prefix.now ≡ prefix.now }
        ensures suffix { result.suffix.now ≡ suffix.now }
    {
        ANSIStr { prefix, suffix }
    }

    /// Returns the string before a part.
    pub fn get_prefix(&self) -> &'a str
        ensures { result.now ≡ self.now.prefix.now }
    {
        self.prefix
    }

    /// Returns the string after a part.
    pub fn get_suffix(&self) -> &'a str
        ensures { result.now ≡ self.now.suffix.now }
    {
        self.suffix
    }

    /// Whether both strings are empty.
    pub fn is_empty(&self) -> bool
        ensures { result ≡ (length self.now.prefix.now == 0 && length self.now.suffix.now == 0) }
    {
        self.prefix.is_empty() && self.suffix.is_empty()
    }
}

/// The settings of a `Table`: a `SpannedConfig`. It adds no colours.
#[derive(Debug, Drop, PartialEq, Eq)]
pub struct ColoredConfig {
    config: SpannedConfig,
}

impl ColoredConfig {
    /// Wraps a `SpannedConfig`.
    pub fn new(config: SpannedConfig) -> ColoredConfig
        ensures { result.config ≡ config }
    {
        ColoredConfig { config }
    }

    /// Returns the settings.
    pub fn as_ref(&self) -> &SpannedConfig
        ensures { result.now ≡ self.now.config }
    {
        &self.config
    }

    /// Borrows the settings mutably.
    pub fn as_mut(&mut self) -> &mut SpannedConfig
        ensures* lends { sem 𝓛 (LendsConfig self.entry result) }
        ensures value { result.now ≡ self.old.config }
    {
        &mut self.config
    }

    /// Clones the settings. Fails only with `Memory`.
    pub fn clone(&self) -> Result<ColoredConfig, TableError>
        ensures equal { IfOk result (λ copy. copy ≡ self.now) }
        ensures only { IfErr result (λ e. e ≡ Memory) }
    {
        let config = self.config.clone()?;
        Ok(ColoredConfig { config })
    }
}

impl Configuration for ColoredConfig {
    fn copied(&self) -> Result<ColoredConfig, TableError> {
        self.clone()
    }
}
