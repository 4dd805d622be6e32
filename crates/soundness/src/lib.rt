// The law of images, on the contract of a function that is named for it.
#![tactic(auto)]

ghost use Rattle.soundness.specs.Laws.{SoundImagesAreLawful};

// The grammar that sound bytes state keeps the law of languages.
pub fn sound_images_are_lawful()
    ensures { SoundImagesAreLawful }
{}
