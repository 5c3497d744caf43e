//! Laws of what the documents say.
ghost use Rattle.sd_documents.specs.Laws.{AcceptedAreConfigs, AcceptedAreGroups, FirstLabelsAreFirst};

use label_sets::map_laws;

/// Where each of a target's first labels comes from.
pub fn first_labels_laws()
    ensures { FirstLabelsAreFirst }
{
    map_laws();
}

/// What is accepted has the shape of a configuration or of target groups, and says what its members say.
pub fn documents_laws()
    ensures configs { AcceptedAreConfigs }
    ensures groups { AcceptedAreGroups }
{
    map_laws();
}
