// Which hexes are open for a nationality and which are its sources, by what was painted.
ghost use Rattle.std.specs.Prelude.{◌≡◌};
ghost use Rattle.position.specs.Kind.{force, us, canada};
ghost use Rattle.position.specs.Board.{board};
ghost use Rattle.position.specs.Laid.{Laid, Read};
ghost use Rattle.field.specs.Scene.{scene};
ghost use Rattle.supply.specs.Open.{home_source, coastal, landing};
ghost use Rattle.supply.specs.Traced.{Traced, regrade_by};
ghost use Rattle.supply.specs.Graded.{MapShows, Grades, open_by, landed_by, source_by, grade_by};

use position::{View, bits, kind, layout, read};

// Whether hex `h`, which is painted `m`, is open.
fn open_by(p: &[u8], v: View, h: usize, m: usize) -> bool
    requires { Laid p.now v }
    ensures { result ≡ open_by (scene (board p.now)) h m }
{
    if 1 < read::surface(p, v, h) {
        return false;
    }
    if bits::has(paint::ENEMY, m) {
        return false;
    }
    if bits::has(paint::ZONE, m) {
        return bits::has(paint::OWN, m);
    }
    true
}

// Whether hex `h` is a supply hex of country `c`.
fn home_source(p: &[u8], v: View, c: usize, h: usize) -> bool
    requires { Laid p.now v }
    ensures { result ≡ home_source (scene (board p.now)) c h }
{
    if bits::has(bits::SUPPLY, read::flags(p, v, h)) {
        return read::country(p, v, h) == c;
    }
    false
}

fn coastal(p: &[u8], v: View, h: usize) -> bool
    requires { Laid p.now v }
    ensures { result ≡ coastal (scene (board p.now)) h }
{
    read::surface(p, v, h) == 1
}

// Whether hex `h` is a port, or coastal and urban, or coastal and supply.
fn landing(p: &[u8], v: View, h: usize) -> bool
    requires { Laid p.now v }
    ensures { result ≡ landing (scene (board p.now)) h }
{
    let flags = read::flags(p, v, h);
    if bits::has(bits::PORT, flags) {
        return true;
    }
    if !coastal(p, v, h) {
        return false;
    }
    if bits::has(bits::URBAN, flags) {
        return true;
    }
    bits::has(bits::SUPPLY, flags)
}

// Whether hex `h`, which is painted `m`, is a source of a force that came over the sea.
fn landed_by(p: &[u8], v: View, h: usize, m: usize) -> bool
    requires { Laid p.now v }
    ensures { result ≡ landed_by (scene (board p.now)) h m }
{
    if coastal(p, v, h) {
        if bits::has(paint::DEPOT, m) {
            return true;
        }
    }
    if bits::has(paint::OWN, m) {
        return landing(p, v, h);
    }
    false
}

// Whether hex `h`, which is painted `m`, is a source of nationality `n`.
fn source_by(p: &[u8], v: View, n: usize, h: usize, m: usize) -> bool
    requires { Laid p.now v }
    ensures { result ≡ source_by (scene (board p.now)) n h m }
{
    if n == kind::US {
        return home_source(p, v, 1, h);
    }
    if n == kind::CANADA {
        return home_source(p, v, 2, h);
    }
    landed_by(p, v, h, m)
}

// The grade of hex `h`, which is painted `m`: 0 closed, 1 open, 2 open and a source.
fn grade_by(p: &[u8], v: View, n: usize, h: usize, m: usize) -> usize
    requires { Laid p.now v }
    ensures { Read (grade_by (scene (board p.now)) n h m) 3 result }
{
    if !open_by(p, v, h, m) {
        return 0;
    }
    if source_by(p, v, n, h, m) {
        return 2;
    }
    1
}

// Every hex's grade in place of its paint.
pub fn grade(p: &[u8], v: View, buf: &mut [u8], n: usize)
    requires { Laid p.now v × MapShows (scene (board p.now)) (force n) buf.old }
    ensures { Grades (scene (board p.now)) n buf.new }
{
    for (h, m) in buf[..v.hexes].iter_mut().enumerate() {
        *m = grade_by(p, v, n, h, layout::wide(*m)) as u8;
    }
}

// The grade for Canada of hex `h`, which is traced `m` for the US: the same hexes are open for both.
fn regrade_by(p: &[u8], v: View, h: usize, m: usize) -> usize
    requires { Laid p.now v }
    ensures { Read (regrade_by (scene (board p.now)) h m) 3 result }
{
    if m <= 0 {
        return 0;
    }
    if home_source(p, v, 2, h) {
        return 2;
    }
    1
}

// Every hex's grade for Canada in place of what was traced for the US.
pub fn regrade(p: &[u8], v: View, buf: &mut [u8])
    requires { Laid p.now v × Traced (scene (board p.now)) us buf.old }
    ensures { Grades (scene (board p.now)) canada buf.new }
{
    for (h, m) in buf[..v.hexes].iter_mut().enumerate() {
        *m = regrade_by(p, v, h, layout::wide(*m)) as u8;
    }
}
