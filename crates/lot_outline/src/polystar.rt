//! Stars and polygons.
ghost use Rattle.std.specs.Prelude.{◌≡◌, ◌≤◌, ◌<◌, ◌*◌, ◌^◌, ◌*ℤ◌, pos, unsigned_abs, map, IfOk};
ghost use Rattle.std.specs.List.{range_with_len};
ghost use Rattle.lot_num.specs.Angle.{sine, cosine};
ghost use Rattle.lot_outline.specs.Polystar.{polystar as polystar_in, polystar_of_kind, point_count as point_count_in, ring_of, ring_at, tangent_length as tangent_length_in, vertex as vertex_in, ring_vertex as ring_vertex_in, vertex_angle as vertex_angle_in, turn_to as turn_to_in, along_radius as along_radius_in, segment_between as segment_between_in, moved_back as moved_back_in, seg_from};

use crate::closed::curve;
use crate::number::{hundredth, minus, rounded_product, times};
use lot_geom::{exact_product, limited, moved, negated};
use lot_num::{cos_fx, rnd_div, sin_fx};
use lot_types::{Contour, Fx, Memory, Point, Seg, Seq};
use std::alloc::Global;

/// A star or a polygon at a time.
#[derive(Clone, Copy)]
pub(crate) struct Polystar {
    /// In millionths of a pixel.
    center: Point,
    /// In millionths of a degree, clockwise. At 0 the first vertex is above the center.
    rotation: Fx,
    /// The number of vertices.
    vertices: u32,
    /// The ring of the first vertex, which is number 0, and of each other one of an even number.
    even: Ring,
    /// The ring of the vertices of odd numbers.
    odd: Ring,
}

/// The vertices at one distance from the center, in millionths of a pixel. Both numbers may be below 0.
#[derive(Clone, Copy)]
pub(crate) struct Ring {
    /// The distance from the center.
    radius: Fx,
    /// The length of the tangents.
    tangent: Fx,
}

/// A vertex, in millionths of a pixel.
#[derive(Clone, Copy)]
struct Vertex {
    at: Point,
    /// The offset to the control point after it. That of the one before it is the opposite.
    tangent: Point,
}

/// The number of points of a star or a polygon: `pt` rounded to a whole number, from 3 to 1000.
#[tactic(auto, unfolding(crate::specs::Polystar::point_count))]
pub(crate) fn point_count(pt: Fx) -> u32
    ensures value { result ≡ point_count_in pt }
    ensures least { 3 ≤ result }
    ensures greatest { result ≤ 1000 }
{
    rnd_div(pt.get() as i128, 1_000_000).clamp(3, 1000) as u32
}

impl Ring {
    /// The vertices at a radius in millionths of a pixel, with a roundness in millionths of a per cent, where there are
    /// `n` points.
    pub(crate) fn of(radius: Fx, roundness: Fx, n: u32) -> Ring
        requires some { 0 < n }
        requires few { n ≤ 1000 }
        ensures { result ≡ ring_of radius roundness n }
    {
        Ring {
            radius,
            tangent: tangent_length(radius, roundness, n),
        }
    }
}

impl Polystar {
    /// The shape of the kind `sy`, 1 for a star and every other number for a polygon, with `n` points: a star has two
    /// vertices for each, in turn on the outer and on the inner ring, and a polygon has one, on the outer ring.
    pub(crate) fn of_kind(
        sy: u8,
        center: Point,
        rotation: Fx,
        n: u32,
        outer: Ring,
        inner: Ring,
    ) -> Polystar
        requires { n ≤ 1000 }
        ensures { result ≡ polystar_of_kind sy center rotation n outer inner }
    {
        if sy == 1 {
            Polystar {
                center,
                rotation,
                vertices: 2 * n,
                even: outer,
                odd: inner,
            }
        } else {
            let odd = outer;
            Polystar {
                center,
                rotation,
                vertices: n,
                even: outer,
                odd,
            }
        }
    }

    /// The closed contour through the vertices, clockwise from the first. Want of memory is the one refusal.
    #[tactic(auto, unfolding(crate::specs::Polystar::polystar))]
    pub(crate) fn contour(&self, alloc: Global) -> Result<Contour, Memory>
        requires some { 0 < self.now.vertices }
        requires few { self.now.vertices ≤ 2000 }
        ensures { IfOk result (λ made. made ≡ polystar_in self.now) }
    {
        let first = self.vertex(0);
        let segs = self.segs(alloc, &first)?;
        Ok(Contour {
            closed: true,
            start: first.at,
            segs,
        })
    }

    /// From each vertex to the next, and from the last to the first.
    fn segs(&self, alloc: Global, first: &Vertex) -> Result<Seq<Seg>, Memory>
        requires some { 0 < self.now.vertices }
        requires few { self.now.vertices ≤ 2000 }
        requires first { first.now ≡ vertex_in self.now 0 }
        ensures { IfOk result (λ made.
            made ≡ map (seg_from self.now) (range_with_len 0 self.now.vertices)) }
    {
        let mut made = Seq::with_capacity(alloc, self.vertices as usize)?;
        let mut from = *first;
        for j in 1..self.vertices {
            let to = self.vertex(j);
            made.push(curve_between(&from, &to))?;
            from = to;
        }
        made.push(curve_between(&from, first))?;
        Ok(made)
    }

    /// Vertex `j`.
    #[tactic(auto, unfolding(crate::specs::Polystar::vertex))]
    fn vertex(&self, j: u32) -> Vertex
        requires some { 0 < self.now.vertices }
        requires few { self.now.vertices ≤ 2000 }
        requires within { j < self.now.vertices }
        ensures { result ≡ vertex_in self.now j }
    {
        let angle = vertex_angle(self.rotation, j, self.vertices);
        let ring = self.ring_at(j);
        vertex_at(&self.center, &ring, sine_of(angle), cosine_of(angle))
    }

    /// The ring of vertex `j`.
    fn ring_at(&self, j: u32) -> Ring
        ensures { result ≡ ring_at self.now j }
    {
        if j % 2 == 0 { self.even } else { self.odd }
    }
}

/// 90 degrees, in millionths of one.
const QUARTER_TURN: i128 = 90_000_000;

/// 360 degrees, in millionths of one.
const FULL_TURN: u64 = 360_000_000;

/// A quarter of the circumference of the circle of radius 1, in millionths.
const QUARTER_CIRCLE: i128 = 1_570_796;

/// One, in millionths of a millionth.
const UNIT: u64 = 1_000_000_000_000;

/// The length of the tangents of a vertex at a radius.
#[tactic(auto, unfolding(crate::specs::Polystar::tangent_length))]
fn tangent_length(radius: Fx, roundness: Fx, n: u32) -> Fx
    requires some { 0 < n }
    requires few { n ≤ 1000 }
    ensures { result ≡ tangent_length_in radius roundness n }
{
    let whole = exact_product(radius, hundredth(roundness)) * QUARTER_CIRCLE;
    limited(rnd_div(whole, (n as u64 * UNIT) as i128))
}

/// The angle at which vertex `j` of `m` is seen from the center.
#[tactic(auto, unfolding(crate::specs::Polystar::vertex_angle))]
fn vertex_angle(rotation: Fx, j: u32, m: u32) -> Fx
    requires within { j < m }
    requires few { m ≤ 2000 }
    ensures { result ≡ vertex_angle_in rotation j m }
{
    limited(rotation.get() as i128 - QUARTER_TURN + turn_to(j, m))
}

/// The angle from the first of `m` vertices to vertex `j`.
fn turn_to(j: u32, m: u32) -> i128
    requires within { j < m }
    requires few { m ≤ 2000 }
    ensures value { result ≡ turn_to_in j m }
    ensures small { unsigned_abs result ≤ 10 ^ 12 }
{
    rnd_div((j as u64 * FULL_TURN) as i128, m as i128)
}

/// The sine of an angle in millionths of a degree, in millionths.
fn sine_of(angle: Fx) -> Fx
    ensures { result ≡ sine angle }
{
    limited(sin_fx(angle.get()) as i128)
}

/// The cosine of such an angle, in millionths.
fn cosine_of(angle: Fx) -> Fx
    ensures { result ≡ cosine angle }
{
    limited(cos_fx(angle.get()) as i128)
}

/// The vertex of a ring at an angle of the given sine and cosine.
fn vertex_at(center: &Point, ring: &Ring, sine: Fx, cosine: Fx) -> Vertex
    ensures { result ≡ ring_vertex_in center.now ring.now sine cosine }
{
    Vertex {
        at: Point {
            x: along_radius(center.x, ring.radius, cosine),
            y: along_radius(center.y, ring.radius, sine),
        },
        tangent: Point {
            x: times(ring.tangent, negated(sine)),
            y: times(ring.tangent, cosine),
        },
    }
}

/// A coordinate at a distance along a radius.
#[tactic(auto, unfolding(crate::specs::Polystar::along_radius))]
fn along_radius(x: Fx, radius: Fx, part: Fx) -> Fx
    ensures { result ≡ along_radius_in x radius part }
{
    limited(x.get() as i128 + rounded_product(radius, part))
}

/// The segment from one vertex to another.
fn curve_between(from: &Vertex, to: &Vertex) -> Seg
    ensures { result ≡ segment_between_in from.now to.now }
{
    curve(
        moved(from.at, from.tangent),
        moved_back(to.at, to.tangent),
        to.at,
    )
}

/// The point at an offset the other way, limited to the range.
fn moved_back(p: Point, by: Point) -> Point
    ensures { result ≡ moved_back_in p by }
{
    Point {
        x: minus(p.x, by.x),
        y: minus(p.y, by.y),
    }
}
