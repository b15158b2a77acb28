// What a call draws: chances and values, from two lent tapes or from one of raw words.
ghost use Rattle.refusal.specs.Refusal.{told};
ghost use Rattle.std.specs.Prelude.{◌≡◌, refl, ℕ};
ghost use Rattle.machine.specs.Source.{Source, draw_of, tapes};
ghost use Rattle.machine.specs.declared.source.Place.{Place};
ghost use Rattle.machine.specs.Words.{chance_of, unit_of, value_of, words};

use refusal::Refusal;

// Where the draws go on: the next chance and the next value; the next word stands in `value_at`.
#[derive(Clone, Copy)]
pub struct Place {
    pub chance_at: usize,
    pub value_at: usize,
}

// What was drawn, and where the draws go on.
#[derive(Clone, Copy)]
pub struct Draw<T> {
    pub value: T,
    pub at: Place,
}

// A source of draws: each answer says where it goes on.
pub trait Draws {
    ghost source: { Self → Source Place };

    fn chance(&self, at: Place) -> Result<Draw<f32>, Refusal>
        ensures { told result ≡ draw_of ((source self.now).chance at) };

    // A Uniform value, of bounds that differ.
    fn uniform(&self, low: f64, high: f64, at: Place) -> Result<Draw<f64>, Refusal>
        ensures { told result ≡ draw_of ((source self.now).values.uniform low high at) };

    // A value of a distribution that is drawn outside.
    fn outside(&self, at: Place) -> Result<Draw<f64>, Refusal>
        ensures { told result ≡ draw_of ((source self.now).values.outside at) };

    // No source moves on at an attempt at a transition.
    ghost untold: { (x : Self) (event machine : ℕ) (at : Place) → (source x).attempt event machine at ≡ at };
}

// ---- two tapes

#[derive(Clone, Copy)]
pub struct Tapes<'a> {
    pub chances: &'a [f32],
    pub values: &'a [f64],
}

impl<'a> Draws for Tapes<'a> {
    ghost source = { λ t. tapes t.chances.now t.values.now };

    // A chance lies in 0 <= c < 1.
    fn chance(&self, at: Place) -> Result<Draw<f32>, Refusal> {
        let i = at.chance_at;
        if i < self.chances.len() {
            let c = self.chances[i];
            if (c >= 0.0) & (c < 1.0) {
                let next = Place {
                    chance_at: i + 1,
                    value_at: at.value_at,
                };
                return Ok(Draw { value: c, at: next });
            }
            return Err(Refusal::UnfitDraw);
        }
        Err(Refusal::NoDraw)
    }

    // A Uniform value lies in low <= v < high.
    fn uniform(&self, low: f64, high: f64, at: Place) -> Result<Draw<f64>, Refusal> {
        let v = self.outside(at)?;
        if (low <= v.value) & (v.value < high) {
            return Ok(v);
        }
        Err(Refusal::UnfitDraw)
    }

    fn outside(&self, at: Place) -> Result<Draw<f64>, Refusal> {
        let i = at.value_at;
        if i < self.values.len() {
            let next = Place {
                chance_at: at.chance_at,
                value_at: i + 1,
            };
            return Ok(Draw {
                value: self.values[i],
                at: next,
            });
        }
        Err(Refusal::NoDraw)
    }

    ghost untold = { λ x event machine at. refl };
}

// ---- one tape of raw words

#[derive(Clone, Copy)]
pub struct Words<'a> {
    pub words: &'a [u64],
}

// The top 24 bits of a word over 2^24, which is exact.
fn chance_of(w: u64) -> f32
    ensures { result ≡ chance_of w }
{
    let k = w / 1099511627776;
    (k as f32) / 16777216.0
}

// The top 53 bits of a word over 2^53, which is exact.
fn unit_of(w: u64) -> f64
    ensures { result ≡ unit_of w }
{
    let k = w / 2048;
    (k as f64) / 9007199254740992.0
}

// low + (high - low) * u, each operation rounded.
fn value_of(low: f64, high: f64, w: u64) -> f64
    ensures { result ≡ value_of low high w }
{
    low + (high - low) * unit_of(w)
}

impl<'a> Draws for Words<'a> {
    ghost source = { λ w. words w.words.now };

    fn chance(&self, at: Place) -> Result<Draw<f32>, Refusal> {
        let i = at.value_at;
        if i < self.words.len() {
            let next = Place {
                chance_at: at.chance_at,
                value_at: i + 1,
            };
            return Ok(Draw {
                value: chance_of(self.words[i]),
                at: next,
            });
        }
        Err(Refusal::NoDraw)
    }

    // Where a word gives high or more the next one is tried.
    fn uniform(&self, low: f64, high: f64, at: Place) -> Result<Draw<f64>, Refusal> {
        for i in at.value_at..self.words.len() {
            let v = value_of(low, high, self.words[i]);
            if high <= v {
                continue;
            }
            let next = Place {
                chance_at: at.chance_at,
                value_at: i + 1,
            };
            return Ok(Draw { value: v, at: next });
        }
        Err(Refusal::NoDraw)
    }

    // No word serves: tables that draw outside are refused before.
    fn outside(&self, _at: Place) -> Result<Draw<f64>, Refusal> {
        Err(Refusal::NoDraw)
    }

    ghost untold = { λ x event machine at. refl };
}
