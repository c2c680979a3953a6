// What follows of a furnished world: laws over the definitions, so the bodies are empty.
ghost use Rattle.std.specs.Prelude.{◌≡◌, ◌<◌, ◌∷◌, [], All, Some, false, map, slice_get, take, ℕ};
ghost use Rattle.mb_base.specs.declared.value.ObjId.{ObjId};
ghost use Rattle.mb_base.specs.declared.value.Side.{Side};
ghost use Rattle.mb_base.specs.declared.value.Value.{Value};
ghost use Rattle.mb_frames.specs.Failing.{HasItsBuiltIns};
ghost use Rattle.mb_frames.specs.Held.{HeldValue};
ghost use Rattle.mb_frames.specs.Ready.{Changed, IsReady, MayHold};
ghost use Rattle.mb_intrinsics.specs.Bound.{bindings_with, with_bindings, with_first_scope};
ghost use Rattle.mb_intrinsics.specs.Furnished.{IsFurnished, desk_cell, desk_id};
ghost use Rattle.mb_intrinsics.specs.Untouched.{IsUntouched, programs_in, rules_in};
ghost use Rattle.mb_model.specs.Story.{desk, first_graph, global_bindings};
ghost use Rattle.mb_world.specs.Contained.{Contained, Paired};
ghost use Rattle.mb_world.specs.Data.{Data, cell_at, objects_of};
ghost use Rattle.mb_world.specs.Formed.{is_of_membrane};
ghost use Rattle.mb_world.specs.Ids.{HasItsIds, ValueIn};
ghost use Rattle.mb_world.specs.Image.{Image, Resolve, names_of, object_in, things_in};
ghost use Rattle.mb_world.specs.Laws.{Becomes};
ghost use Rattle.mb_world.specs.Value.{Object};
ghost use Rattle.mb_world.specs.declared.cell.Cell.{Cell};
ghost use Rattle.mb_world.specs.declared.cell.CellKind.TheVariants.{BuiltIn};
ghost use Rattle.mb_world.specs.declared.scope.Job.TheVariants.{Script};

/// Each side that takes part in a furnished world has each built-in, as the table has it.
pub fn a_furnished_world_has_its_built_ins()
    ensures { (d d' : Data) (n : ℕ) → IsFurnished d n d' → HasItsBuiltIns d' }
{}

/// The image of a furnished world has one object, `desk`, as the first graph has it.
pub fn desk_is_the_only_object()
    ensures { (d d' : Data) (n : ℕ) → 0 < n → IsFurnished d n d' → things_in (names_of d') d'.cells ≡ desk ∷ [] }
{}

/// In a furnished world no cell is the membrane's, so that it is paired where there are no entries.
pub fn a_furnished_world_is_paired()
    ensures cells { (d d' : Data) (n : ℕ) → IsFurnished d n d' → All (λ c. is_of_membrane c.kind ≡ false) d'.cells }
    ensures paired { (d d' : Data) (n : ℕ) → d.entries ≡ [] → IsFurnished d n d' → Paired d' }
{}

/// A home of a furnished world has no two built-ins for one place.
pub fn a_home_has_one_built_in_for_a_place()
    ensures { (d d' : Data) (n : ℕ) → IsFurnished d n d' → (i k : ObjId) (place : ℕ) (c e : Cell) →
        cell_at d' i ≡ Some c → cell_at d' k ≡ Some e → c.home ≡ e.home → c.kind ≡ BuiltIn place →
        e.kind ≡ BuiltIn place → i ≡ k }
{}

/// An untouched world that is furnished is ready, and each side holds only its own.
pub fn a_furnished_world_is_ready()
    ensures contained { (d d' : Data) (n : ℕ) → IsUntouched d n → IsFurnished d n d' → Contained d' }
    ensures ready { (d d' : Data) (n : ℕ) → IsUntouched d n → IsFurnished d n d' → HasItsIds d' → IsReady d' }
{}

/// Where the first scope of a side is made the world stays ready, and its image has that scope more; where `desk`
/// stands for the object 0 it has the bindings of the first graph.
pub fn names_are_bound_in_a_ready_world()
    ensures changed { (d : Data) (side : Side) (desk : Value) → IsReady d → side.0 < d.sides →
        MayHold d side (HeldValue desk) → Changed side d (with_first_scope d side desk) }
    ensures image { (d : Data) (side : Side) (desk : Value) → IsReady d → side.0 < d.sides → ValueIn d desk →
        Becomes d (with_first_scope d side desk) (with_bindings side.0 (Resolve (names_of d) desk)) }
    ensures globals { bindings_with (Object 0) ≡ global_bindings }
{}

/// `desk` of a furnished world stands behind all built-ins, is the first side's, and has the number 0.
pub fn desk_is_the_first_object()
    ensures cell { (d d' : Data) (n : ℕ) → IsFurnished d n d' →
        cell_at d' (desk_id d.joined n) ≡ Some (desk_cell d'.texts) }
    ensures first { (d d' : Data) (n : ℕ) → IsFurnished d n d' →
        slice_get (objects_of d'.cells) 0 ≡ Some (desk_id d.joined n) }
    ensures stands { (d d' : Data) (n : ℕ) → IsFurnished d n d' →
        object_in (names_of d') (desk_id d.joined n) ≡ Object 0 }
{}

/// A furnished world stands for the first graph, but that no side has a scope yet.
pub fn a_furnished_world_shows_the_first_graph()
    ensures { (d d' : Data) (n : ℕ) → HasItsIds d → IsUntouched d n → d.cells ≡ [] → d.symbols ≡ [] →
        d.revoked ≡ false → take n d.queues ≡ map (λ p. Script ∷ []) (take n d.programs) → IsFurnished d n d' →
        Image d' [] ≡ record (first_graph (programs_in d n) (rules_in d)) { scopes = [] } }
{}
