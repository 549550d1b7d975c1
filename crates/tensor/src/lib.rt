// Tensors: the element check, the best of a window, the plane picker and the peak finder.
#![tactic(auto)]

ghost use Rattle.std.specs.Prelude.{◌+◌, ◌*◌, ◌≤◌, ◌≡◌, true, length, not, position};
ghost use Rattle.tensor.specs.Element.{element_ok, bad_count, element_check, bad_elements_of};
ghost use Rattle.tensor.specs.Window.{better_of, best_of, up_to};
ghost use Rattle.tensor.specs.Plane.{sizes_ok, has_plane, part_of, plane_of};
ghost use Rattle.tensor.specs.Peak.{wrong_length, peak_at, peak_of};

use counts::{quotient, remainder};
use layer::{Refusal, channels_ok, images_ok, size_ok};

// ---- the element check

// The bad elements of a tensor: the place of the first one, and how many there are.
#[derive(Clone, Copy, PartialEq, Eq)]
pub struct BadElements {
    pub place: usize,
    pub bad: usize,
}

impl BadElements {
    // The refusal that they are, by the number of their tensor.
    pub fn refusal(self, tensor: u32) -> Refusal
        ensures { result ≡ bad_elements_of self tensor }
    {
        Refusal::BadElement {
            tensor,
            place: self.place,
            bad: self.bad,
        }
    }
}

// Magnitude at most 2^40, and not NaN.
fn element_ok(x: f32) -> bool
    ensures { result ≡ element_ok x }
{
    (x <= 1099511627776.0) & (-1099511627776.0 <= x)
}

// How many elements are bad.
#[tactic(auto, using(crate::proofs::Element::count_is))]
fn bad_count(elements: &[f32]) -> usize
    ensures { result ≡ bad_count elements.now }
{
    elements.iter().filter(|x| !element_ok(**x)).count()
}

// The place of the first bad element, if one is bad.
fn first_bad(elements: &[f32]) -> Option<usize>
    ensures { result ≡ position (λ x. not (element_ok x)) elements.now }
{
    elements.iter().position(|x| !element_ok(*x))
}

// Number 9: whether every element is good. A good tensor is looked at once; bad elements are counted where there is one.
#[tactic(auto, using(crate::proofs::Element::found_none, crate::proofs::Element::found_bad))]
pub fn check_elements(xs: &[f32]) -> Result<(), BadElements>
    ensures { result ≡ element_check xs.now }
{
    match first_bad(xs) {
        None => Ok(()),
        Some(place) => Err(BadElements {
            place,
            bad: bad_count(xs),
        }),
    }
}

// ---- the best of a window

// What a window holds: nothing, or its best value with its place. No Option: document 01 asks for this enum ("Places and their forms").
#[derive(Clone, Copy)]
pub enum Window {
    Empty,
    Best(f32, usize),
}

// The window after one more element. Of two that are equal the first stays.
pub fn better(w: Window, v: f32, p: usize) -> Window
    ensures { result ≡ better_of w v p }
{
    match w {
        Window::Empty => Window::Best(v, p),
        Window::Best(b, q) => {
            if b < v {
                Window::Best(v, p)
            } else {
                Window::Best(b, q)
            }
        }
    }
}

// ---- the plane picker

// The five sizes of a tensor [n, c, z, y, x]: its images, channels, depths, rows and columns.
#[derive(Clone, Copy, PartialEq, Eq)]
pub struct Dimensions {
    pub n: u32,
    pub c: u32,
    pub z: u32,
    pub y: u32,
    pub x: u32,
}

// Which plane of a tensor: that of an image, a channel and a depth.
#[derive(Clone, Copy, PartialEq, Eq)]
pub struct PlaneIndex {
    pub image: u32,
    pub channel: u32,
    pub depth: u32,
}

impl Dimensions {
    // Number 1's limits of the five sizes.
    #[tactic(auto, unfolding(crate::specs::Plane::sizes_ok))]
    fn within_limits(self) -> bool
        ensures { result ≡ sizes_ok self.n self.c self.z self.y self.x }
    {
        images_ok(self.n)
            && channels_ok(self.c)
            && size_ok(self.z)
            && size_ok(self.y)
            && size_ok(self.x)
    }

    // How many elements a tensor of these sizes has.
    #[tactic(auto, using(crate::proofs::Plane::sizes_in))]
    fn elements(self) -> usize
        requires within { sizes_ok self.n self.c self.z self.y self.x ≡ true }
        ensures { result ≡ self.n * self.c * self.z * self.y * self.x }
    {
        self.n as usize * self.c as usize * self.z as usize * self.y as usize * self.x as usize
    }

    // Whether a slice of len elements is a tensor of these sizes with this plane.
    #[tactic(auto, unfolding(crate::specs::Plane::has_plane))]
    fn has_plane(self, len: usize, at: PlaneIndex) -> bool
        ensures { result ≡ has_plane len self.n self.c self.z self.y self.x at.image at.channel at.depth }
    {
        self.within_limits()
            && len == self.elements()
            && at.image < self.n
            && at.channel < self.c
            && at.depth < self.z
    }
}

// A part of a slice: where it begins and how long it is, in elements.
#[derive(Clone, Copy)]
pub struct Part {
    pub start: usize,
    pub length: usize,
}

// The part of a tensor slice of len elements that is the plane at an index; its empty part where there is none.
#[tactic(auto, using(crate::proofs::Plane::plane_in))]
pub fn plane_part(len: usize, sizes: Dimensions, at: PlaneIndex) -> Part
    ensures value { result ≡ part_of len sizes.n sizes.c sizes.z sizes.y sizes.x at.image at.channel at.depth }
    ensures length_bound { result.start + result.length ≤ len }
{
    if !sizes.has_plane(len, at) {
        return Part {
            start: 0,
            length: 0,
        };
    }
    let channel = at.image as usize * sizes.c as usize + at.channel as usize;
    let plane = channel * sizes.z as usize + at.depth as usize;
    let size = sizes.y as usize * sizes.x as usize;
    Part {
        start: plane * size,
        length: size,
    }
}

// The plane at an index, as that part of the caller's own slice.
pub fn pick_plane(tensor: &[f32], sizes: Dimensions, at: PlaneIndex) -> &[f32]
    ensures contents { result.now ≡ plane_of tensor.now sizes.n sizes.c sizes.z sizes.y sizes.x at.image at.channel at.depth }
    ensures block { result.ref_ptr.0 ≡ tensor.entry.ref_ptr.0 }
    ensures offset { result.ref_ptr.1 ≡ tensor.entry.ref_ptr.1 + (part_of (length tensor.now) sizes.n sizes.c sizes.z sizes.y sizes.x at.image at.channel at.depth).start * 4 }
{
    let part = plane_part(tensor.len(), sizes, at);
    &tensor[part.start..part.start + part.length]
}

// ---- the peak finder

// The first largest element of a plane.
#[derive(Clone, Copy)]
pub struct Peak {
    pub value: f32,
    pub row: usize,
    pub column: usize,
}

// Number 8: no width, no element, or a last row that is not whole.
fn wrong_length(len: usize, width: usize) -> bool
    ensures { result ≡ wrong_length len width }
{
    width == 0 || len == 0 || !len.is_multiple_of(width)
}

// The best of a whole plane.
#[tactic(auto, using(crate::proofs::Peaks::best_none, crate::proofs::Peaks::best_more))]
fn best_of_plane(plane: &[f32]) -> Window
    ensures { result ≡ best_of plane.now (up_to (length plane.now)) Window.Empty }
{
    let mut best = Window::Empty;
    for (i, v) in plane.iter().enumerate() {
        best = better(best, *v, i);
    }
    best
}

// The peak that is the best of a plane, which holds an element where the plane does.
fn peak_at(width: usize, best: Window) -> Result<Peak, Refusal>
    ensures { result ≡ peak_at width best }
{
    match best {
        Window::Empty => Err(Refusal::SliceLength),
        Window::Best(value, p) => Ok(Peak {
            value,
            row: quotient(p, width),
            column: remainder(p, width),
        }),
    }
}

// The peak of a plane with rows of this width.
pub fn find_peak(plane: &[f32], width: usize) -> Result<Peak, Refusal>
    ensures { result ≡ peak_of plane.now width }
{
    if wrong_length(plane.len(), width) {
        return Err(Refusal::SliceLength);
    }
    check_elements(plane).map_err(|b| b.refusal(0))?;
    peak_at(width, best_of_plane(plane))
}
