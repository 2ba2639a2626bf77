// For a sum of pulls whose roots are known. Not a public call.

ghost use Rattle.std.specs.Prelude.{◌≡◌};
ghost use Rattle.root_known.specs.Known.{AreRoots};
ghost use Rattle.gravity_terms.specs.Added.{flattened_by, oblate_by, sunlit_by};

use gravity_pull::Pull;
use gravity_pull::pulls::{difference, pull_known};
use root_known::Rooted;
use state::{Setting, Vector};

// A sum minus the term of the oblate Earth. The Earth's pull at the position q is known.
fn flatten(setting: Setting, q: Vector, by: Pull, sum: Pull) -> Pull
    ensures { result ≡ flattened_by setting q by sum }
{
    let n = state::square(q);
    let u = q.z * q.z / n;
    let part = setting.a * setting.a / n;
    let side = 1.0 - 5.0 * u;
    Pull {
        x: sum.x - setting.j * by.x * part * side,
        y: sum.y - setting.j * by.y * part * side,
        z: sum.z - setting.j * by.z * part * (3.0 - 5.0 * u),
        sound: sum.sound & by.sound,
    }
}

// The roots that the sum took are known. `home` is the position of the Earth, seen from the centre.
pub fn oblate_sum(setting: Setting, home: Vector, p: Vector, sum: Pull, known: &[Rooted]) -> Pull
    requires { AreRoots known.now }
    ensures { result ≡ oblate_by setting home p sum }
{
    if 0.0 < setting.j {
        let q = difference(p, home);
        return flatten(setting, q, pull_known(q, setting.earth, known), sum);
    }
    sum
}

// The same for sunlight: `sun` is the position of the Sun, seen from the centre.
pub fn sunlit_sum(setting: Setting, sun: Vector, p: Vector, sum: Pull, known: &[Rooted]) -> Pull
    requires { AreRoots known.now }
    ensures { result ≡ sunlit_by setting sun p sum }
{
    if 0.0 < setting.k {
        let light = pull_known(difference(p, sun), setting.k, known);
        return Pull {
            x: sum.x + light.x,
            y: sum.y + light.y,
            z: sum.z + light.z,
            sound: sum.sound & light.sound,
        };
    }
    sum
}
