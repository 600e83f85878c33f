//! The output of a line.
use crate::Output;
use crate::kinds::{again, fault_word, map_again, toml_again, written};
use csv::ErrorKind;
use example_formats::codes::{Row, from_csv, rows_from_csv};
use example_formats::config::{self, Config};
use example_formats::levels::Level;
use example_formats::shapes::{Counts, Either, Flat, Inner, Places, Point};
use litemap_serde::SerdeMap;
use serde_json::Value;
use std::alloc::{AllocError, Global};
use std::collections::BTreeMap;

/// Returns the output of a line.
pub fn answer(alloc: Global, line: &str) -> Output {
    let Some((what, text)) = line.split_once(' ') else {
        return String::from_str(alloc, "no text");
    };
    match what {
        "u8" => map_again::<u8, u8>(alloc, text),
        "u128" => map_again::<u128, u128>(alloc, text),
        "i64" => map_again::<i64, i64>(alloc, text),
        "bool" => map_again::<bool, bool>(alloc, text),
        "char" => map_again::<char, char>(alloc, text),
        "text" => map_again::<String, String>(alloc, text),
        "lent" => map_again::<&str, &str>(alloc, text),
        "words" => map_again::<u32, String>(alloc, text),
        "bytes" => map_again::<u16, u8>(alloc, text),
        "bits" => map_again::<u16, bool>(alloc, text),
        "units" => map_again::<u16, ()>(alloc, text),
        "levels" => map_again::<Level, u8>(alloc, text),
        "f64" => map_again::<String, f64>(alloc, text),
        "option" => map_again::<String, Option<u32>>(alloc, text),
        "list" => map_again::<String, Vec<u32>>(alloc, text),
        "tree" => map_again::<String, BTreeMap<String, u8>>(alloc, text),
        "value" => map_again::<String, Value>(alloc, text),
        "nested" => map_again::<String, SerdeMap<u32, Counts, Vec<(u32, Counts)>>>(alloc, text),
        "counts" => map_again::<String, Counts>(alloc, text),
        "vector" => again::<Vec<Counts>>(alloc, text),
        "perhaps" => again::<Option<Counts>>(alloc, text),
        "points" => map_again::<Point, u8>(alloc, text),
        "places" => again::<Places>(alloc, text),
        "inner" => again::<Inner>(alloc, text),
        "either" => again::<Either>(alloc, text),
        "flat" => again::<Flat>(alloc, text),
        "config" => json_again(alloc, text),
        _ => answer_text(alloc, what, text),
    }
}

// What a TOML or CSV text, of which this is the JSON string, is read as, written again.
fn answer_text(alloc: Global, what: &str, json: &str) -> Output {
    let text: String = or_word!(alloc, "no text", serde_json::from_str(alloc, json));
    match what {
        "toml-text" => toml_again::<String, String>(alloc, &text),
        "toml-u32" => toml_again::<u32, u32>(alloc, &text),
        "toml-counts" => toml_again::<String, Counts>(alloc, &text),
        "toml-config" => config_again(alloc, &text),
        "overlay" => overlaid(alloc, &text),
        "codes" => match from_csv(alloc, text.as_bytes()) {
            Ok(codes) => written(alloc, &SerdeMap(codes)),
            Err(fault) => refused(alloc, &fault),
        },
        "csv-rows" => match rows_from_csv::<Row>(alloc, text.as_bytes()) {
            Ok(rows) => written(alloc, &rows),
            Err(fault) => refused(alloc, &fault),
        },
        _ => String::from_str(alloc, "no such line"),
    }
}

// The output of a CSV text that is not read.
fn refused(alloc: Global, fault: &csv::Error) -> Output {
    match fault.kind() {
        ErrorKind::OutOfMemory => Err(AllocError),
        _ => String::from_str(alloc, "refused"),
    }
}

// A configuration from JSON, written as JSON.
fn json_again(alloc: Global, text: &str) -> Output {
    match unless_memory!(config::from_json(alloc, text)) {
        Ok(config) => Ok(or_word!(alloc, "not written", config::to_json(alloc, &config))),
        Err(fault) => String::from_str(alloc, fault_word(&fault)),
    }
}

// A configuration from TOML, written as TOML.
fn config_again(alloc: Global, text: &str) -> Output {
    let config = or_word!(alloc, "refused", config::from_toml(alloc, text));
    toml_text(alloc, &config)
}

// The TOML text of a configuration, as a JSON string.
fn toml_text(alloc: Global, config: &Config) -> Output {
    let text = or_word!(alloc, "not written", config::to_toml(alloc, config));
    written(alloc, &text)
}

// The defaults with a TOML text's limits over theirs, written as TOML.
fn overlaid(alloc: Global, text: &str) -> Output {
    let user = or_word!(alloc, "refused", config::from_toml(alloc, text));
    let mut config = or_word!(alloc, "no defaults", config::from_json(alloc, DEFAULTS));
    config::overlay(&mut config.limits, alloc, user.limits)?;
    toml_text(alloc, &config)
}

// The configuration if a user says nothing.
const DEFAULTS: &str =
    r#"{"title":"defaults","names":{"de":"German"},"limits":{"depth":8,"lines":100}}"#;
