// The two sides of an interface, and what crosses between them.
ghost use Rattle.water.specs.Fits.{SideStateFits, ExchangeFits};

// A cell, or a boundary beside one: bed level, depth, wave speed, and velocity right − left
#[derive(Clone, Copy)]
pub struct SideState {
    pub bed: i64,
    pub depth: u64,
    pub wave: u64,
    pub right: u64,
    pub left: u64,
    pub ghost fits: { SideStateFits bed depth wave right left },
}

// What crosses an interface: W of the left side rightwards, W of the right side leftwards, P, and what the bed takes of either side's thrust,
// S(h) − S(h*). N is rightward − leftward; of a cell, S(own h* at the right) − S(own h* at the left) is what is lost at its left less what is
// lost at its right.
#[derive(Clone, Copy)]
pub struct Exchange {
    pub rightward: u64,
    pub leftward: u64,
    pub momentum: u64,
    pub lost_left: u64,
    pub lost_right: u64,
    pub ghost fits: { ExchangeFits rightward leftward momentum lost_left lost_right },
}
