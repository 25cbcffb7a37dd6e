//! The law of settings that are accepted.
ghost use Rattle.std.specs.Prelude.{◌≡◌, ℕ, List, None, Ok};
ghost use Rattle.item_definitions.specs.Item.{Item};
ghost use Rattle.converter_definitions.specs.Gives.{Conversion};
ghost use Rattle.breach_definitions.specs.Breach.{breach};
ghost use Rattle.settings_definitions.specs.Settings.{Settings, settings_of};
ghost use Rattle.settings_definitions.specs.Converting.{Serves, AllConverted};

/// Settings that are accepted have a converter for each element: where a document obeys their schema, each of its elements is given a shape wherever
/// it stands, by the converters of the settings in whatever order, with a product's lawful ones among them.
#[tactic(auto)]
pub fn accepted_settings_convert_each_element()
    ensures { (converters fixers : List (List ℕ)) (bytes : List ℕ) (settings : Settings) → settings_of converters fixers bytes ≡ Ok settings
        → (conversion : Conversion) → Serves settings.converters conversion
        → (items : List Item) → breach settings.rules items ≡ None → AllConverted conversion items }
{}
