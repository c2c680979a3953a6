// Where what a side sees through a proxy comes from.
ghost use Rattle.std.specs.Prelude.{◌≡◌, IfSome};
ghost use Rattle.std.specs.Option.{option_and_then};
ghost use Rattle.mb_world.specs.Data.{cell_at};
ghost use Rattle.mb_world.specs.Ids.{ObjIn};
ghost use Rattle.mb_maps.specs.Crossing.{meant};
ghost use Rattle.mb_shadow.specs.Seeing.{CanSee, IsProxy, home_at, shadow_at, view_through};
ghost use Rattle.mb_shadow.specs.machine.Sights.{view_of, IsSight};

use mb_base::{ObjId, Side};
use mb_maps::behind;
use mb_world::{CellKind, World};

// The object that is seen, and the side that sees it so; then the side that has the proxy, and the proxy's shadow.
#[derive(Clone, Copy)]
pub struct Sight {
    pub object: ObjId,
    pub viewer: Side,
    pub home: Side,
    pub shadow: ObjId,
}

// What is seen through a proxy, or `None` where the target of the script-made Proxy behind it is gone.
pub fn sight_of(w: &World, proxy: ObjId) -> Option<Sight>
    requires proxy { IsProxy (cell_at w.now proxy) }
    requires world { CanSee w.now }
    ensures view { view_through w.now proxy ≡ option_and_then (view_of w.now) result }
    ensures sight { IfSome result (IsSight w.now) }
    ensures home { IfSome result (λ s. s.home ≡ home_at w.now proxy) }
    ensures shadow { IfSome result (λ s. s.shadow ≡ shadow_at w.now proxy) }
{
    let home = w.home(proxy);
    let CellKind::Membrane { behind, shadow } = w.cell(proxy).kind else {
        unreachable!()
    };
    match w.cell(behind).kind {
        CellKind::Proxy { target, .. } => {
            let target = target?;
            Some(Sight {
                object: meant(w, target),
                viewer: w.home(behind),
                home,
                shadow,
            })
        }
        _ => Some(Sight {
            object: behind,
            viewer: home,
            home,
            shadow,
        }),
    }
}

// The object that an id means: of a membrane proxy the one behind it.
fn meant(w: &World, id: ObjId) -> ObjId
    requires { ObjIn w.now id }
    ensures { result ≡ meant w.now id }
{
    match behind(w, id) {
        Some(object) => object,
        None => id,
    }
}
