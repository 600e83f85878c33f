//! A configuration that has maps as fields, read from JSON and TOML, laid over defaults and written back.
ghost use Rattle.std.specs.Prelude.{◌≡◌};
ghost use Rattle.litemap.specs.Words.{IsUnchanged, OnErr, OnOk, get_by_text, option_or};

use litemap::{LiteMap, VecMap};
use serde::{Deserialize, Serialize};
use std::alloc::{AllocError, Global};

/// Limits by their names.
pub type Limits = VecMap<String, u32>;

/// A configuration.
#[derive(Drop, Serialize, Deserialize)]
pub struct Config {
    /// What it is called.
    pub title: String,
    /// Names by their codes.
    #[serde(with = "litemap_serde")]
    pub names: VecMap<String, String>,
    /// Limits, which may be left out.
    #[serde(default, with = "litemap_serde", skip_serializing_if = "LiteMap::is_empty")]
    pub limits: Limits,
}

/// A configuration from JSON.
pub fn from_json(alloc: Global, text: &str) -> Result<Config, serde_json::Error> {
    serde_json::from_str(alloc, text)
}

/// A configuration as JSON.
pub fn to_json(alloc: Global, config: &Config) -> Result<String, serde_json::Error> {
    serde_json::to_string(alloc, config)
}

/// A configuration from TOML.
pub fn from_toml(alloc: Global, text: &str) -> Result<Config, toml::de::Error> {
    toml::from_str(alloc, text)
}

/// A configuration as TOML.
pub fn to_toml(alloc: Global, config: &Config) -> Result<String, toml::ser::WriteError> {
    toml::to_string(alloc, config)
}

/// Puts a user's limits over those that are there, or leaves them as they are if memory runs out.
pub fn overlay(limits: &mut Limits, alloc: Global, user: Limits) -> Result<(), AllocError>
    // The user's limit if there is one, else the one that was there.
    ensures found { OnOk result ((name : _) → get_by_text limits.new name
        ≡ option_or (get_by_text user name) (get_by_text limits.old name)) }
    ensures unchanged { OnErr result (IsUnchanged limits.old limits.new) }
{
    limits.extend_from_litemap(alloc, user)?;
    Ok(())
}
