// The table of built-ins.
ghost use Rattle.std.specs.Prelude.{◌≡◌, ◌<◌, Some, length, map, option_map, slice_get};
ghost use Rattle.mb_world.specs.Intrinsics.{intrinsic, name_of};

// The names of the built-ins, by place.
const NAMES: [&str; 80] = [
    "print",
    "later",
    "labelled",
    "Object",
    "Array",
    "Reflect",
    "Proxy",
    "String",
    "Error",
    "TypeError",
    "RangeError",
    "ReferenceError",
    "Function.prototype",
    "Object.prototype",
    "Object.prototype.hasOwnProperty",
    "Object.create",
    "Object.keys",
    "Object.freeze",
    "Object.isFrozen",
    "Object.seal",
    "Object.getPrototypeOf",
    "Object.setPrototypeOf",
    "Object.defineProperty",
    "Object.getOwnPropertyDescriptor",
    "Array.prototype",
    "Array.prototype.push",
    "Array.prototype.pop",
    "Array.prototype.map",
    "Array.prototype.forEach",
    "Array.prototype.filter",
    "Array.prototype.reduce",
    "Array.prototype.indexOf",
    "Array.prototype.slice",
    "Array.prototype.join",
    "Array.isArray",
    "Reflect.apply",
    "Reflect.construct",
    "Reflect.defineProperty",
    "Reflect.deleteProperty",
    "Reflect.get",
    "Reflect.getOwnPropertyDescriptor",
    "Reflect.getPrototypeOf",
    "Reflect.has",
    "Reflect.isExtensible",
    "Reflect.ownKeys",
    "Reflect.preventExtensions",
    "Reflect.set",
    "Reflect.setPrototypeOf",
    "Proxy.revocable",
    "Error.prototype",
    "TypeError.prototype",
    "RangeError.prototype",
    "ReferenceError.prototype",
    "Function.prototype.call",
    "Function.prototype.apply",
    "Symbol",
    "Object.getOwnPropertySymbols",
    "Map",
    "Set",
    "WeakMap",
    "Map.prototype",
    "Map.prototype.get",
    "Map.prototype.set",
    "Map.prototype.has",
    "Map.prototype.delete",
    "Map.prototype.clear",
    "Map.prototype.forEach",
    "Map.prototype.size",
    "Set.prototype",
    "Set.prototype.add",
    "Set.prototype.has",
    "Set.prototype.delete",
    "Set.prototype.clear",
    "Set.prototype.forEach",
    "Set.prototype.size",
    "WeakMap.prototype",
    "WeakMap.prototype.get",
    "WeakMap.prototype.set",
    "WeakMap.prototype.has",
    "WeakMap.prototype.delete",
];

/// The whole name of the built-in at a place of the table.
pub fn name_of(place: u16) -> &'static str
    requires { place < 80 }
    ensures { option_map name_of (intrinsic place) ≡ Some result.now }
{
    name_at(&NAMES, place as usize)
}

fn name_at(names: &[&'static str], place: usize) -> &'static str
    requires { place < length names.now }
    ensures { slice_get (map (λ name. name.now) names.now) place ≡ Some result.now }
{
    names[place]
}
