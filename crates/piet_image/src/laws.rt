// What holds of the definitions.
ghost use Rattle.std.specs.Prelude.{ℕ};
ghost use Rattle.piet_image.specs.Picture.{Picture};
ghost use Rattle.piet_image.specs.Laws.{Within, HasOneAtlas, WrittenIsSpelled, TextsAreDecided};

/// Every finite picture has blocks with sizes and exits, and slides with ends, and they are the picture's alone.
pub fn pictures_have_one_atlas()
    ensures { (f : Picture) (width height : ℕ) → Within f width height → HasOneAtlas f }
{}

/// What is written of an image reads as the image.
pub fn written_images_are_spelled()
    ensures { WrittenIsSpelled }
{}

/// A text spells one image at most, and none where it is refused.
pub fn texts_are_decided()
    ensures { TextsAreDecided }
{}
