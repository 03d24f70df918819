//! The options that a command line gives.
ghost use Rattle.std.specs.Prelude.{◌≡◌, Some, None, MatchResult, option_map};
ghost use Rattle.clap.specs.Words.{rows_of, found_of};
ghost use Rattle.vbr_settings.specs.Options.{settings_among, number_among, has_switch, asks_map_among, file_among, explained_among, HasNumber, IsSwitch, AreComplete, shape_fault};

use crate::config::Config;
use clap::ArgMatches;
use vbr_words::{Shape, ShapeError};

/// The options that a command line gives.
#[derive(Drop)]
pub struct Options<'a> {
    pub(crate) matches: ArgMatches<'a>,
}

impl<'a> Options<'a> {
    /// How the script is to be played, if the numbers that are given are a shape. The options are
    /// those that were read off a command line.
    ///
    /// # Errors
    ///
    /// What is wrong with the shape.
    pub fn config(&self) -> Result<Config, ShapeError>
        requires { AreComplete (rows_of (found_of self.now.matches)) }
        ensures { MatchResult result
            (λ config. (shape_fault (settings_among (rows_of (found_of self.now.matches))) ≡ None)
            × (config ≡ settings_among (rows_of (found_of self.now.matches))))
            (λ error. shape_fault (settings_among (rows_of (found_of self.now.matches)))
            ≡ Some error) }
    {
        config_of(&self.matches)
    }

    /// Whether the script is one of a map, and not of a set. The options are those that were read off
    /// a command line.
    pub fn asks_map(&self) -> bool
        requires { AreComplete (rows_of (found_of self.now.matches)) }
        ensures { result ≡ asks_map_among (rows_of (found_of self.now.matches)) }
    {
        is_given(&self.matches, "map")
    }

    /// The name of the file that the script is read from, if it isn't standard input.
    pub fn file(&self) -> Option<&'a str>
        ensures { option_map (λ name. name.now) result
            ≡ file_among (rows_of (found_of self.now.matches)) }
    {
        match self.matches.get_str("file") {
            Some(name) if name != "-" => Some(name),
            _ => None,
        }
    }

    /// The name of what is to be explained, if nothing is to be played.
    pub fn explained(&self) -> Option<&'a str>
        ensures { option_map (λ name. name.now) result
            ≡ explained_among (rows_of (found_of self.now.matches)) }
    {
        self.matches.get_str("explain")
    }
}

// The config that the options give.
fn config_of(matches: &ArgMatches) -> Result<Config, ShapeError>
    requires { AreComplete (rows_of (found_of matches.now)) }
    ensures { MatchResult result
        (λ config. (shape_fault (settings_among (rows_of (found_of matches.now))) ≡ None)
        × (config ≡ settings_among (rows_of (found_of matches.now))))
        (λ error. shape_fault (settings_among (rows_of (found_of matches.now))) ≡ Some error) }
{
    let shape = shape_of(matches)?;
    let workers = number_of(matches, "workers") as u32;
    let budget = number_of(matches, "budget") as u32;
    let epoch = is_given(matches, "epoch");
    Ok(Config::new(shape, workers, budget, epoch).unwrap())
}

// The shape that the options give.
fn shape_of(matches: &ArgMatches) -> Result<Shape, ShapeError>
    requires { AreComplete (rows_of (found_of matches.now)) }
    ensures { MatchResult result
        (λ shape. (shape_fault (settings_among (rows_of (found_of matches.now))) ≡ None)
        × (shape ≡ (settings_among (rows_of (found_of matches.now))).shape))
        (λ error. shape_fault (settings_among (rows_of (found_of matches.now))) ≡ Some error) }
{
    let slots = number_of(matches, "slots") as u32;
    let buckets = number_of(matches, "buckets") as u32;
    Shape::new(slots, buckets, number_of(matches, "last-epoch"))
}

// The number that an option has.
fn number_of(matches: &ArgMatches, name: &str) -> u64
    requires { HasNumber name.now (rows_of (found_of matches.now)) }
    ensures { result ≡ number_among name.now (rows_of (found_of matches.now)) }
{
    matches.get_one(name).unwrap()
}

// Whether a switch is given.
fn is_given(matches: &ArgMatches, name: &str) -> bool
    requires { IsSwitch name.now (rows_of (found_of matches.now)) }
    ensures { result ≡ has_switch name.now (rows_of (found_of matches.now)) }
{
    matches.get_flag(name)
}
