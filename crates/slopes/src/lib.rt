// What the slope detectors share: the previous sample, the slopes from it to the next, the point that these give, and runs of points.
#![tactic(auto)]

ghost use Rattle.std.specs.Prelude.{◌≡◌, leb};
ghost use Rattle.slopes.specs.Slope.{slope_of};
ghost use Rattle.slopes.specs.Previous.{no_previous, remembered, forgotten, slopes_to};
ghost use Rattle.slopes.specs.Point.{over_on, no_axis, first_over, point_of};
ghost use Rattle.slopes.specs.Runs.{no_runs, longer, over_run, calm_run};

use laws::bit;

// The size of the difference of two samples, and whether it is negative: the rules ask for either alone, and a signed number would be
// taken apart at each.
#[derive(Clone, Copy)]
pub struct Slope {
    pub size: u32,
    pub falling: bool,
}

// The slopes of a sample's axes.
#[derive(Clone, Copy)]
pub struct Slopes {
    pub x: Slope,
    pub y: Slope,
    pub z: Slope,
}

// The sample before the next one, if it is known. The flag stands beside it, since the theorem on points speaks of it
// (`points/proofs/Points: Follows`). In 8 bytes, which move as one.
#[repr(C)]
#[derive(Clone, Copy)]
pub struct Previous {
    x: i16,
    y: i16,
    z: i16,
    known: bool,
}

// What a sample gives: no point, a calm one, or one that is over on an axis (1 is x, 2 is y, 4 is z), with its sign. The detectors go by
// all three in one match, which an `Option` would make two.
#[derive(Clone, Copy)]
pub enum Point {
    None,
    Calm,
    Over(u8, bool),
}

// How many over points, and how many calm ones, came in a row; one of the two is 0.
#[repr(C)]
#[derive(Clone, Copy)]
pub struct Runs {
    over: u8,
    calm: u8,
}

pub fn slope_between(old: i16, new: i16) -> Slope
    ensures { result ≡ slope_of old new }
{
    let difference = new as i32 - old as i32;
    Slope {
        size: difference.unsigned_abs(),
        falling: difference < 0,
    }
}

impl Previous {
    // As at power-up.
    pub fn none() -> Self
        ensures { result ≡ no_previous }
    {
        Previous {
            x: 0,
            y: 0,
            z: 0,
            known: false,
        }
    }

    // A sample that is the previous one from now on.
    pub fn remember(x: i16, y: i16, z: i16) -> Self
        ensures { result ≡ remembered x y z }
    {
        Previous {
            x,
            y,
            z,
            known: true,
        }
    }

    pub fn forget(mut self) -> Self
        ensures { result ≡ forgotten self }
    {
        self.known = false;
        self
    }

    // The slopes from it to the next sample; none where no sample came before that.
    #[tactic(auto, unfolding(crate::specs::Previous::slopes_to))]
    pub fn slopes_to(self, x: i16, y: i16, z: i16) -> Option<Slopes>
        ensures { result ≡ slopes_to x y z self }
    {
        if self.known {
            Some(Slopes {
                x: slope_between(self.x, x),
                y: slope_between(self.y, y),
                z: slope_between(self.z, z),
            })
        } else {
            None
        }
    }
}

// Whether none of a detector's axes is enabled (bits 2:0 count): no sample gives a point then.
pub fn no_axis(axes: u8) -> bool
    ensures { result ≡ no_axis axes }
{
    axes % 8 == 0
}

// Whether the axis at a place is enabled and its slope above the threshold.
fn over_on(place: u8, axes: u8, threshold: u8, slope: Slope) -> bool
    ensures { result ≡ over_on place axes threshold slope }
{
    let limit = 4 * threshold as u32;
    bit(axes, place) && limit < slope.size
}

// The first axis that is over.
#[tactic(auto, unfolding(crate::specs::Point::first_over))]
fn first_over(axes: u8, threshold: u8, x: Slope, y: Slope, z: Slope) -> Point
    ensures { result ≡ first_over axes threshold x y z }
{
    if over_on(0, axes, threshold, x) {
        return Point::Over(1, x.falling);
    }
    if over_on(1, axes, threshold, y) {
        return Point::Over(2, y.falling);
    }
    if over_on(2, axes, threshold, z) {
        return Point::Over(4, z.falling);
    }
    Point::Calm
}

// The point that slopes give, by a detector's axes (bits 2:0 count) and its threshold.
#[tactic(auto, unfolding(crate::specs::Point::point_of))]
pub fn judge(axes: u8, threshold: u8, slopes: Option<Slopes>) -> Point
    ensures { result ≡ point_of axes threshold slopes }
{
    match slopes {
        Some(slopes) if !no_axis(axes) => {
            first_over(axes, threshold, slopes.x, slopes.y, slopes.z)
        }
        _ => Point::None,
    }
}

// A run that is longer by one point, counted as far as n.
fn longer_run(n: u8, run: u8) -> u8
    ensures { result ≡ longer n run }
{
    if run < n { run + 1 } else { n }
}

impl Runs {
    pub fn none() -> Self
        ensures { result ≡ no_runs }
    {
        Runs { over: 0, calm: 0 }
    }

    // An over point comes, where n in a row are asked for.
    #[tactic(auto, unfolding(crate::specs::Runs::over_run))]
    pub fn after_over(mut self, n: u8) -> Self
        ensures { result ≡ over_run n self }
    {
        self.over = longer_run(n, self.over);
        self.calm = 0;
        self
    }

    // A calm point comes. With `after_over` it has the two fields the other way round, as the definitions have them: no plainer as one.
    #[tactic(auto, unfolding(crate::specs::Runs::calm_run))]
    pub fn after_calm(mut self, n: u8) -> Self
        ensures { result ≡ calm_run n self }
    {
        self.over = 0;
        self.calm = longer_run(n, self.calm);
        self
    }

    // Whether n over points in a row are reached.
    pub fn reached_over(self, n: u8) -> bool
        ensures { result ≡ leb n self.over }
    {
        n <= self.over
    }

    // Whether n calm points in a row are reached.
    pub fn reached_calm(self, n: u8) -> bool
        ensures { result ≡ leb n self.calm }
    {
        n <= self.calm
    }
}
