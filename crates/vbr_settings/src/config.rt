//! How a script is played: on a set or map of which shape, by how many workers, and with which budget.
ghost use Rattle.std.specs.Prelude.{◌≡◌, false, Some, None, MatchResult};
ghost use Rattle.vbr_settings.specs.Settings.{AreSettings, config_error};

use std::marker::Model;
use thiserror::Error;
use vbr_words::Shape;

/// The greatest number of workers.
pub const MAX_WORKERS: u32 = 16;

/// How a script is played.
#[derive(Clone, Copy, Debug, PartialEq, Eq)]
pub struct Config {
    shape: Shape,
    workers: u32,
    budget: u32,
    epoch: bool,
}

impl Model for Config {
    ghost use Rattle.vbr_settings.specs.Settings.{Settings, AreSettings};

    ghost Value = { Settings };

    ghost view = { λ c. record {
      shape = c.shape;
      workers = c.workers;
      budget = c.budget;
      epoch = c.epoch;
    } };

    ghost invariant = { λ c. AreSettings (record {
      shape = c.shape;
      workers = c.workers;
      budget = c.budget;
      epoch = c.epoch;
    }) };

    ghost inverse = { λ s. record {
      shape = s.shape;
      workers = s.workers;
      budget = s.budget;
      epoch = s.epoch;
    } };
}

/// Why a script can't be played so.
#[derive(Clone, Copy, Debug, PartialEq, Eq, Error)]
pub enum ConfigError {
    /// The number of workers is 0 or above `MAX_WORKERS`.
    #[error("the number of workers is not from 1 to {MAX_WORKERS}")]
    Workers,
}

impl Config {
    /// Plays on a set or map of this shape, by so many workers, with a budget of so many steps for each
    /// call, and shows its epoch in the end or not. It reaches no set and takes no memory. Whether the
    /// shape has values isn't kept: a set has none, and a map has.
    ///
    /// # Errors
    ///
    /// - Workers: the number of workers is 0 or above 16.
    ///
    /// # Example
    ///
    /// ```rattle file=crates/vbr_example/src/main.rt
    /// let config = Config::new(Shape::new(64, 16, MAX_EPOCH)?, 3, 100_000, false)?;
    /// ```
    pub fn new(shape: Shape, workers: u32, budget: u32, epoch: bool) -> Result<Self, ConfigError>
        ensures { MatchResult result
            (λ config. (config_error workers ≡ None) × (config ≡ record {
              shape = record shape { values = false };
              workers = workers;
              budget = budget;
              epoch = epoch;
            }))
            (λ error. config_error workers ≡ Some error) }
    {
        if workers == 0 || workers > MAX_WORKERS {
            return Err(ConfigError::Workers);
        }
        Ok(Config {
            shape: shape.without_values(),
            workers,
            budget,
            epoch,
        })
    }

    /// The shape of the set, or of the map but for its values.
    pub fn shape(&self) -> Shape
        ensures { result ≡ self.now.shape }
    {
        self.shape
    }

    /// The number of workers, from 1 to `MAX_WORKERS`.
    pub fn workers(&self) -> u32
        ensures workers { result ≡ self.now.workers }
        ensures within { AreSettings self.now }
    {
        self.workers
    }

    /// The greatest number of steps that a call may make.
    pub fn budget(&self) -> u32
        ensures { result ≡ self.now.budget }
    {
        self.budget
    }

    /// Whether the epoch in the end is printed.
    pub fn epoch(&self) -> bool
        ensures { result ≡ self.now.epoch }
    {
        self.epoch
    }
}
