// The volume of a tetrahedron on the grid: its points, D and S. Coordinates are any bytes: nothing overflows.
#![tactic(auto)]

ghost use Rattle.std.specs.Prelude.{◌≡◌, ◌+◌, ◌*◌, ◌^◌, ◌≤◌, nat_abs, ◌-ℤ◌, ◌*ℤ◌, length};
ghost use Rattle.volume.specs.Steps.{largest_byte, minor_limit, volume_limit, length_limit, spread_limit};
ghost use Rattle.volume.specs.Volume.{point_size, point_in, arrow, determinant, D, S, squared_length};

use std::marker::Model;

// ---- points

// A place on the grid.
#[derive(Clone, Copy)]
pub struct Point {
    pub x: u8,
    pub y: u8,
    pub z: u8,
}

// A point is x, y, z.
pub const POINT_SIZE: usize = 3;

// Point i of some coordinates.
pub fn point_in(coordinates: &[u8], i: usize) -> Point
    requires { point_size * i + point_size ≤ length coordinates.now }
    ensures { result ≡ point_in coordinates.now i }
{
    let at = POINT_SIZE * i;
    Point {
        x: coordinates[at],
        y: coordinates[at + 1],
        z: coordinates[at + 2],
    }
}

// ---- D and S

// An arrow from one place to another: how far it goes along each axis.
#[derive(Clone, Copy)]
struct Arrow {
    x: i64,
    y: i64,
    z: i64,
}

impl Model for Arrow {
    ghost use Rattle.std.specs.Prelude.{◌≤◌, nat_abs};
    ghost use Rattle.volume.specs.Steps.{largest_byte};
    ghost use Rattle.volume.specs.Volume.{Arrow};

    ghost Value = { Arrow };

    ghost view = { λ u. (u.x, u.y, u.z) };

    ghost invariant = { λ u. (nat_abs u.x ≤ largest_byte) × (nat_abs u.y ≤ largest_byte) × (nat_abs u.z ≤ largest_byte) };

    ghost inverse = { λ u. record { x = u.0; y = u.1; z = u.2 } };
}

// The arrow from s to p.
fn beyond(p: Point, s: Point) -> Arrow
    ensures { result ≡ arrow p s }
{
    Arrow {
        x: p.x as i64 - s.x as i64,
        y: p.y as i64 - s.y as i64,
        z: p.z as i64 - s.z as i64,
    }
}

// The determinant with rows a, b and c, d.
fn minor(a: i64, b: i64, c: i64, d: i64) -> i64
    requires { (nat_abs a ≤ largest_byte) × (nat_abs b ≤ largest_byte) × (nat_abs c ≤ largest_byte) × (nat_abs d ≤ largest_byte) }
    ensures { (result ≡ a *ℤ d -ℤ b *ℤ c) × (nat_abs result ≤ minor_limit) }
{
    a * d - b * c
}

// The determinant with rows u, v and w, from the first row and the minors of the other two.
fn determinant(u: Arrow, v: Arrow, w: Arrow) -> i64
    ensures { result ≡ determinant u v w }
{
    let x = minor(v.y, v.z, w.y, w.z);
    let y = minor(v.x, v.z, w.x, w.z);
    let z = minor(v.x, v.y, w.x, w.y);
    u.x * x - u.y * y + u.z * z
}

// D: six times the volume of the tetrahedron, over 0 where it stands upright.
pub fn volume(p: Point, q: Point, r: Point, s: Point) -> i64
    ensures { (result ≡ D p q r s) × (nat_abs result ≤ volume_limit) }
{
    determinant(beyond(p, s), beyond(q, s), beyond(r, s))
}

// The square of a number up to the largest size of D.
pub fn square(d: i64) -> u64
    requires { nat_abs d ≤ volume_limit }
    ensures { result ≡ nat_abs d ^ 2 }
{
    (d * d) as u64
}

// The squared length of the edge p q.
fn squared_length(p: Point, q: Point) -> u64
    ensures { (result ≡ squared_length p q) × (result ≤ length_limit) }
{
    let u = beyond(p, q);
    square(u.x) + square(u.y) + square(u.z)
}

// S: the sum of the six squared edge lengths.
pub fn spread(p: Point, q: Point, r: Point, s: Point) -> u64
    ensures { (result ≡ S p q r s) × (result ≤ spread_limit) }
{
    squared_length(p, q)
        + squared_length(p, r)
        + squared_length(p, s)
        + squared_length(q, r)
        + squared_length(q, s)
        + squared_length(r, s)
}
